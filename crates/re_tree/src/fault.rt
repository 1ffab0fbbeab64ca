//! What is wrong with a pattern that has a tree.

/// What is wrong. Of two faults at one place the one that is first here is answered.
#[derive(Clone, Copy, PartialEq, Eq, Debug)]
pub enum FaultKind {
    /// A parenthesis inside 60 others.
    TooDeep,
    /// A group past the 65,535th.
    TooManyGroups,
    /// A name that is no identifier, or that of a group before.
    BadName,
    /// A count past 4,294,967,294, or a least count above the greatest.
    BadCount,
    /// A group that is not there, or not yet.
    BadReference,
    /// A lookbehind whose body has no width, or one past 4,294,967,295.
    NotFixedWidth,
}

/// What is wrong, and where.
#[derive(Clone, Copy, PartialEq, Eq, Debug)]
pub struct Fault {
    /// The place, in code points, of the parenthesis, backslash or count that begins what is wrong.
    pub at: usize,
    /// What is wrong there.
    pub kind: FaultKind,
}
