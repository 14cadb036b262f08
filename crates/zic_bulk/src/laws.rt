//! Laws of what is placed in a folder, each the contract of a function that does nothing.

ghost use Rattle.zic_bulk.specs.Laws.{FilesArePlacedOneWay, LinksArePlacedOneWay, SymbolicLinksLead};

/// States that texts determine the files that are placed in a folder.
pub fn files_are_placed_one_way()
    ensures { FilesArePlacedOneWay }
{}

/// States that texts determine the files and the links that are placed in a folder.
pub fn links_are_placed_one_way()
    ensures { LinksArePlacedOneWay }
{}

/// States that the text of a symbolic link is the way from the link's own folder to the file of the
/// zone.
pub fn symbolic_links_lead_to_zones()
    ensures { SymbolicLinksLead }
{}
