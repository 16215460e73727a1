// Records about points: their lines and cells, the keys of lines, and the points at cells. Each is asked past its bounds too, and each
// point in the eight views.
use point::{Index, Place, Point, address, line_from_key, line_key, undone};
use records::{answer, byte, refusal_word};
use renju::renju_turn_point;
use rules::Refusal;

// `a`: the line through a point, the point's cell, the line's last cell and its key are recorded.
pub(crate) fn replay_address(record: &[u8]) -> u32 {
    let code = byte(record, 2);
    let d = byte(record, 5);
    let index = Index {
        d,
        i: byte(record, 8),
        j: byte(record, 11),
    };
    let last = byte(record, 14);
    let key = recorded_key(byte(record, 17));
    let mut t = replay_point(code, index);
    t = answer(t, line_key(d, index.i) == Ok(key));
    t = answer(t, place_is(address(d, code), key, index.j));
    t = replay_index(t, index, last, code);
    t = replay_steps(t, index, last);
    replay_turns(t, code, d)
}

// No key is recorded as 255.
fn recorded_key(key: u8) -> Option<u8> {
    if key == 255 { None } else { Some(key) }
}

// The address where its line is stored, which is recorded by the key.
fn place_is(place: Place, key: Option<u8>, cell: u8) -> bool {
    match key {
        Some(key) => place.stored && place.key == key && place.cell == cell,
        None => !place.stored,
    }
}

// The point of a code, and the line through it in a direction.
fn replay_point(code: u8, index: Index) -> u32 {
    let mut t = answer(0, Point::try_from(225) == Err(Refusal::NoPoint));
    t = answer(t, Point::try_from(255) == Err(Refusal::NoPoint));
    match Point::try_from(code) {
        Ok(point) => {
            t = answer(t, point.code() == Ok(code));
            t = answer(t, point.to_index(index.d) == Ok(index));
            answer(t, point.to_index(4) == Err(Refusal::NoNumber))
        }
        Err(_) => answer(t, false),
    }
}

fn replay_index(before: u32, index: Index, last: u8, code: u8) -> u32 {
    let end = at_cell(index, last);
    let mut t = answer(before, Index::new(index.d, index.i, index.j) == Ok(index));
    t = answer(t, code_at(index) == Ok(code));
    t = answer(t, index.max_j() == Ok(last));
    t = answer(t, index.offset(steps(index.j, last)) == Ok(end));
    answer(
        t,
        index.offset(steps(index.j, after(last))) == Err(Refusal::NoPlace),
    )
}

// Another cell of the same line.
fn at_cell(index: Index, j: u8) -> Index {
    Index { j, ..index }
}

// The code of the point at a cell.
fn code_at(index: Index) -> Result<u8, Refusal> {
    index.to_point()?.code()
}

// To the cell itself, to both ends of its line, and past them, where there is none.
fn replay_steps(before: u32, index: Index, last: u8) -> u32 {
    let j = index.j;
    let first = Ok(Some(at_cell(index, 0)));
    let end = Ok(Some(at_cell(index, last)));
    let mut t = answer(before, index.checked_offset(0) == Ok(Some(index)));
    t = answer(t, index.checked_offset(forth(steps(j, last))) == end);
    t = answer(
        t,
        index.checked_offset(forth(steps(j, after(last)))) == Ok(None),
    );
    t = answer(t, index.checked_offset(back(j)) == first);
    answer(t, index.checked_offset(back(after(j))) == Ok(None))
}

// Each direction's record asks two of the eight views, so every point is asked about in every view.
fn replay_turns(t: u32, code: u8, d: u8) -> u32 {
    if 3 < d {
        return answer(t, false);
    }
    answer(answer(t, turns(code, d)), turns(code, d + 4))
}

// The undoing view sends the point back. There is no point 225 and no view 8; the point is looked at first.
fn turns(code: u8, view: u8) -> bool {
    let to = renju_turn_point(code, view);
    to <= 224
        && renju_turn_point(to as u8, undone(view)) == code as u32
        && renju_turn_point(code, 8) == refusal_word(12)
        && renju_turn_point(225, view) == refusal_word(8)
        && renju_turn_point(255, 8) == refusal_word(8)
}

// How many steps it is forth from a cell to another.
fn steps(from: u8, to: u8) -> u8 {
    to.saturating_sub(from)
}

// 100 leads past the end of every line.
fn forth(steps: u8) -> i8 {
    steps.min(100) as i8
}

// So many steps back, as a number; for more than a line has 100, which leads past its end.
fn back(steps: u8) -> i8 {
    if steps <= 15 { -(steps as i8) } else { 100 }
}

fn after(j: u8) -> u8 {
    j.saturating_add(1)
}

// `v`: the line of a key is recorded.
pub(crate) fn replay_key(record: &[u8]) -> u32 {
    let key = byte(record, 2);
    let d = byte(record, 5);
    let i = byte(record, 8);
    let mut t = answer(0, line_from_key(key) == Ok(Index { d, i, j: 0 }));
    t = answer(t, line_key(d, i) == Ok(recorded_key(key)));
    t = answer(t, line_from_key(72) == Err(Refusal::NoPlace));
    t = answer(t, line_key(4, i) == Err(Refusal::NoNumber));
    answer(t, line_key(d, lines_in(d)) == Err(Refusal::NoPlace))
}

// `w`: the point at a cell is recorded.
pub(crate) fn replay_cell(record: &[u8]) -> u32 {
    let d = byte(record, 2);
    let i = byte(record, 5);
    let j = byte(record, 8);
    let index = Index { d, i, j };
    let none = Index {
        d,
        i: lines_in(d),
        j,
    };
    let mut t = answer(0, Index::new(d, i, j) == Ok(index));
    t = answer(t, code_at(index) == Ok(byte(record, 11)));
    t = answer(t, Index::new(4, i, j) == Err(Refusal::NoNumber));
    t = answer(t, Index::new(d, lines_in(d), j) == Err(Refusal::NoPlace));
    t = answer(t, none.to_point() == Err(Refusal::NoPlace));
    answer(t, none.max_j() == Err(Refusal::NoPlace))
}

// How many lines a direction has.
fn lines_in(d: u8) -> u8 {
    if d < 2 { 15 } else { 29 }
}
