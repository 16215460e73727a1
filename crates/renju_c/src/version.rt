// The version of the host interface, in a name: a caller that was written for another version does not link.
ghost use Rattle.std.specs.Prelude.{◌≡◌};

// The number is one more, in the name too, when a host function is added, removed or changed in its parameters, answer or meaning.
#[unsafe(no_mangle)]
pub extern "C" fn renju_interface_2() -> u32
    ensures { result ≡ 2 }
{
    renju::renju_interface_2()
}
