//! How the names of Link lines come into a folder as links.

/// A kind of link in a file system.
#[derive(Clone, Copy, Debug, PartialEq, Eq)]
pub enum LinkKind {
    /// One more name of the same file.
    Hard,
    /// A file whose text is the way from its own folder to the other file.
    Symbolic,
}

/// A folder in which the names of Link lines are links of one kind to the files of zones.
#[derive(Clone, Copy, Debug)]
pub struct LinkedFolder<'a> {
    /// The path of the folder.
    pub path: &'a str,
    /// The kind of its links.
    pub kind: LinkKind,
}
