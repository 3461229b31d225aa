// The census, put into a lent room behind the judge's line.
ghost use Rattle.std.specs.Prelude.{◌≡◌, cond, [], ◌∷◌, ◌+◌, ◌*◌, ◌^◌, ◌≤◌, ◌<◌, length};
ghost use Rattle.lists.specs.Gather.{joined};
ghost use Rattle.layout.specs.Layout.{node_count};
ghost use Rattle.lines.specs.Written.{Written};
ghost use Rattle.counting.specs.Lines.{share_line, silent_line, tally_of, count_lines};
ghost use Rattle.counting.specs.Rows.{silent_row, pass_rows};

use crate::counts::{count_rows, is_counted};
use crate::{Counted, Tally};
use lines::{Line, add_numbers, put_line, put_word};
use preparing::Proposal;

// The counts, of a network with this many own boxes.
pub fn tally(proposal: &Proposal<'_, '_>, boxes: usize) -> Tally
    ensures { result ≡ tally_of proposal.now.network.form proposal.now.network.bytes.now proposal.now.list.now boxes }
{
    Tally {
        boxes,
        holding: count_rows(proposal, Counted::Holding),
        inputs: count_rows(proposal, Counted::Inputs),
        assumed: count_rows(proposal, Counted::Assumed),
        promises: count_rows(proposal, Counted::Promises),
        promised: count_rows(proposal, Counted::Promised),
        asked: count_rows(proposal, Counted::Asked),
    }
}

// `WORD PART of WHOLE`
fn put_share(word: &[u8], part: usize, whole: usize, room: &mut [u8], at: usize) -> usize
    requires { (at + 100 < 2 ^ 64) × (length word.now ≤ 20) }
    ensures { Written (share_line word.now part whole) room.old at room.new result × (result ≤ at + 100) }
{
    let next = put_word(word, room, at);
    let next = add_numbers(&[part], room, next);
    let next = put_word(b" of", room, next);
    let next = add_numbers(&[whole], room, next);
    put_word(b"\n", room, next)
}

// The four lines of counts.
fn put_counts(tally: Tally, room: &mut [u8], at: usize) -> usize
    requires { at + 400 < 2 ^ 64 }
    ensures { Written (count_lines tally) room.old at room.new result × (result ≤ at + 400) }
{
    let next = put_share(b"holding", tally.holding, tally.boxes, room, at);
    let next = put_share(b"assumed", tally.assumed, tally.inputs, room, next);
    let next = put_share(b"promised", tally.promised, tally.promises, room, next);
    let next = put_word(b"asked", room, next);
    let next = add_numbers(&[tally.asked], room, next);
    put_word(b"\n", room, next)
}

// `silent ID`
fn put_name(id: usize, room: &mut [u8], at: usize) -> usize
    requires { at + 28 < 2 ^ 64 }
    ensures { Written (silent_line id) room.old at room.new result × (result ≤ at + 28) }
{
    let next = put_word(b"silent", room, at);
    let next = add_numbers(&[id], room, next);
    put_word(b"\n", room, next)
}

// The line of the box in a row, where it holds none though nobody asked for it.
fn put_silent(proposal: &Proposal<'_, '_>, i: usize, room: &mut [u8], at: usize) -> usize
    requires { (i < node_count proposal.now.network.bytes.now) × (at + 28 < 2 ^ 64) }
    ensures { Written (silent_row proposal.now.network.form proposal.now.network.bytes.now proposal.now.list.now i) room.old at room.new result × (result ≤ at + 28) }
{
    if !is_counted(proposal, Counted::Silent, i) {
        return at;
    }
    put_name(usize::from(proposal.network.node_id(i)), room, at)
}

// These lines, by rising id.
fn put_silents(proposal: &Proposal<'_, '_>, room: &mut [u8], at: usize) -> usize
    requires { at < 2 ^ 63 }
    ensures { let n = proposal.now.network in
        Written (joined (silent_row n.form n.bytes.now proposal.now.list.now) (node_count n.bytes.now)) room.old at room.new result }
{
    let mut next = at;
    for i in 0..proposal.network.node_count() {
        next = put_silent(proposal, i, room, next);
    }
    next
}

// The judge's line of a pass, and the census behind it.
pub fn put_census(proposal: &Proposal<'_, '_>, tally: Tally, room: &mut [u8]) -> usize
    ensures { Written (pass_rows proposal.now.network.form proposal.now.network.bytes.now proposal.now.list.now tally) room.old 0 room.new result }
{
    let next = put_line(Line::Pass(tally.boxes), room, 0);
    let next = put_counts(tally, room, next);
    put_silents(proposal, room, next)
}
