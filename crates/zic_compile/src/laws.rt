//! Laws of images and files, each the contract of a function that does nothing.

ghost use Rattle.zic_compile.specs.Laws.{ImagesReadAsZones, OneImage, ImagesHaveNoFault, OneFaultOfZone, FilesAreSound, TextsHaveOneListOfFiles, NoFilesHaveAFault, TextsHaveOneFault};

/// States that the image of a zone is a file, which gives what the zone shows at every instant.
pub fn images_read_as_zones()
    ensures { ImagesReadAsZones }
{}

/// States that a zone has at most one image.
pub fn a_zone_has_one_image()
    ensures { OneImage }
{}

/// States that a zone with an image has no fault.
pub fn images_have_no_fault()
    ensures { ImagesHaveNoFault }
{}

/// States that a zone has at most one fault.
pub fn a_zone_has_one_fault()
    ensures { OneFaultOfZone }
{}

/// States that the files of a sound source are sound: their names differ, and each gives local time
/// at every instant, within the limits.
pub fn files_are_sound()
    ensures { FilesAreSound }
{}

/// States that texts have at most one list of files.
pub fn texts_have_one_list_of_files()
    ensures { TextsHaveOneListOfFiles }
{}

/// States that no texts have both files and a fault.
pub fn no_files_have_a_fault()
    ensures { NoFilesHaveAFault }
{}

/// States that texts have at most one fault.
pub fn texts_have_one_fault()
    ensures { TextsHaveOneFault }
{}
