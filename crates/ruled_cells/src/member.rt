//! What the other cells hold.

/// The value of one of the row of cells. It holds the loads and stores of its part of the device.
///
/// Its laws are over journals of the first cell, whose k-th entry has the stamp (k, 0).
pub trait Member {
    ghost use Rattle.ruled_cells.specs.Laws.{AccessEnters, AccessKeeps, ChangeIs, ChangeMakes, Stays};
    ghost use Rattle.ruled_cells.specs.Reads.{MemberReads};

    // What the rule reads of it: the configuration that it was made with, its entries and its clock, which entries of
    // the journal touch it, which accesses belong to it, when it is right for a journal, and how an access and a change
    // alter it.
    ghost reads: { MemberReads Self };

    // An access appends one load or store and sets the clock to its stamp; a change sets the clock alone.
    ghost enters: { AccessEnters reads.config reads.entries reads.clock reads.belongs reads.access };

    ghost changes: { ChangeIs reads.config reads.entries reads.clock reads.change };

    // The three laws.
    ghost stays: { Stays reads.entries reads.clock reads.touches reads.right };

    ghost keeps: { AccessKeeps reads.entries reads.clock reads.right reads.access };

    ghost makes: { ChangeMakes reads.entries reads.clock reads.right reads.change };
}
