// What the fragment keeps of every row of the network's nodes.
ghost use Rattle.std.specs.Prelude.{◌≡◌, ◌<◌, cond, eqb};
ghost use Rattle.lists.specs.Gather.{count, table_after};
ghost use Rattle.layout.specs.Layout.{node_count};
ghost use Rattle.marking.specs.Pieces.{kept_in, some_kept, code_of, kept_by};
ghost use Rattle.marking.specs.declared.pieces.Kept.TheVariants.{Nothing};

use crate::tables::Fragment;
use layout::ROWS;
use nodes::promising_at;

// What the fragment keeps of a node: nothing, the node as it stands, the node with its note promised, or its note assumed. A table by rows has
// it as a code.
#[derive(Clone, Copy)]
pub enum Kept {
    Nothing,
    Stays,
    Promised,
    Assumed,
}

impl Kept {
    // Whether anything is kept.
    fn is_some(self) -> bool
        ensures { result ≡ some_kept self }
    {
        match self {
            Kept::Nothing => false,
            _ => true,
        }
    }
}

impl From<Kept> for u8 {
    ghost from_gives = { λ kept code. code ≡ code_of kept };

    fn from(kept: Kept) -> u8 {
        match kept {
            Kept::Nothing => 0,
            Kept::Stays => 1,
            Kept::Promised => 2,
            Kept::Assumed => 3,
        }
    }
}

impl From<u8> for Kept {
    ghost from_gives = { λ code kept. kept ≡ kept_by code };

    fn from(code: u8) -> Kept {
        match code {
            0 => Kept::Nothing,
            1 => Kept::Stays,
            2 => Kept::Promised,
            _ => Kept::Assumed,
        }
    }
}

// What is kept where a row is marked; of one that is not marked, nothing is.
fn where_marked(mark: u8, kept: Kept) -> Kept
    ensures { result ≡ cond (eqb mark 0) Nothing kept }
{
    match mark {
        0 => Kept::Nothing,
        _ => kept,
    }
}

impl Fragment<'_> {
    ghost use Rattle.marking.specs.Fragments.{keeping, kept_of, LeavesOf, FeedsOf};

    // What the fragment keeps of the node in row i.
    fn piece_of(self, leaves: &[u8; ROWS], feeds: &[u8; ROWS], i: usize) -> Kept
        requires row { i < node_count self.entered.network.bytes.now }
        requires leaving { LeavesOf self.entered leaves.now × FeedsOf self feeds.now }
        ensures { result ≡ kept_in self.entry.entered.network.form self.entry.entered.network.bytes.now self.entry.entered.sheet.now self.entry.k i }
    {
        let network = self.entered.network;
        if !network.is_own(i) {
            return where_marked(feeds[i], Kept::Stays);
        }
        if self.fragments[i] != self.k {
            return where_marked(feeds[i], Kept::Assumed);
        }
        if leaves[i] == 0 {
            return Kept::Stays;
        }
        if promising_at(network.form.route, network.bytes, network.node_offset(i)) {
            return Kept::Stays;
        }
        Kept::Promised
    }

    // Stores the code of what the fragment keeps of each row. Answers how many are kept.
    pub fn classify_rows(
        self,
        leaves: &[u8; ROWS],
        feeds: &[u8; ROWS],
        pieces: &mut [u8; ROWS],
    ) -> usize
        requires { LeavesOf self.entered leaves.now × FeedsOf self feeds.now }
        ensures kept { result ≡ count (kept_of self.entry) (node_count self.entry.entered.network.bytes.now) }
        ensures classified { pieces.new ≡ table_after (keeping self.entry) (node_count self.entry.entered.network.bytes.now) pieces.old }
    {
        let n = self.entered.network.node_count();
        let mut kept = 0;
        for i in 0..n {
            let piece = self.piece_of(leaves, feeds, i);
            pieces[i] = u8::from(piece);
            kept += usize::from(piece.is_some());
        }
        kept
    }
}
