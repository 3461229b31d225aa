// The entry points: judging, and the lookup of a neighbour's route.
ghost use Rattle.std.specs.Prelude.{◌≡◌};
ghost use Rattle.judging.specs.Answers.{answer_of};
ghost use Rattle.judging.specs.Judging.{judge_records};
ghost use Rattle.judging.specs.Neighbour.{neighbour_bytes};

use crate::Verdict;
use crate::first_fault::search;
use layout::ROWS;
use preparing::{Lookup, prepare};

// Judges a list record against a network record: the network's refusals, the list's, an own box without an entry, and then
// the first fault or a pass.
pub fn judge<'a>(network: &'a [u8], list: &'a [u8]) -> Verdict
    ensures { answer_of result ≡ judge_records network.now list.now }
{
    let mut rows = [0u16; 65536];
    let mut stands = [0usize; ROWS];
    match prepare(network, list, &mut rows, &mut stands) {
        Err(r) => Verdict::Refused(r),
        Ok(form) => search(&Lookup::new(form, network, list, &rows, &stands)),
    }
}

// The route bytes of the box with an id, as they stand in the network or in the list; an empty part where judging the list
// would be refused or no node has the id.
pub fn neighbour<'a>(network: &'a [u8], list: &'a [u8], id: u16) -> &'a [u8]
    ensures { result.now ≡ neighbour_bytes network.now list.now id }
{
    let mut rows = [0u16; 65536];
    let mut stands = [0usize; ROWS];
    match prepare(network, list, &mut rows, &mut stands) {
        Err(_) => &network[0..0],
        Ok(form) => Lookup::new(form, network, list, &rows, &stands).named_part(id),
    }
}
