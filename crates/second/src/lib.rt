// The second referee: slow, and written to be read beside document 01 (and document 02, No. 6). It keeps a board of 225 cells and nothing
// else, and walks its lines cell by cell. It answers for cell bytes: rows, four eyes, plain and strict verdict, the forbidden list.
//
// Read `line` first, then `window` and `row` (section 4), `count` ("more than one"), `eye` and `verdict` (section 5); then `board`, `key`,
// `row_bytes` and `list` for the lists, `refusal` and `front` for what is asked from outside.
//
// `requires` and `ensures` under a function's name say what is proved of it, and may be passed over. `&&` between two tests is "and", `||`
// is "or", `!` is "not", `==` is "equals", `!=` is "differs"; `+= 1` is "one more"; `code / 15` is the column and `code % 15`, the rest,
// the row. `let` names a number, `let mut` one that changes, `for j in 0..16` goes over the numbers from 0 to 15, `match` picks the line
// that fits. `u8` is a small number, `as usize` is needed to count along the board. `Code`, `Way`, `Key` and `Start` are small numbers that
// stand for a point, a direction, a line and a cell where a window may start: below 225, 4, 72 and 16. `code.get()` is the number itself,
// `Code::new(p).unwrap()` makes one of a number that is below. `None` is "there is none", `Some(j)` "there is one, j". `&[u8; 225]` is a
// board that is looked at, `&mut [u8; 225]` one that may be written on, `Kept<60>` a list of at most 60 bytes, at whose end `keep` puts
// some. A function's answer is what stands at its end or after `return`; `?` behind a test ends with its refusal, where it has one. The
// lines `use` at the top of a file say where its words come from.
#![tactic(auto)]

mod board;
mod count;
mod eye;
mod front;
mod key;
mod line;
mod list;
mod refusal;
mod row;
mod row_bytes;
mod verdict;
mod window;

pub use front::{forbidden, forbidden_points, forbidden_strict, four_eyes_on, rows, rows_on};
