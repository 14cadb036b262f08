//! Laws of zones by name, each the contract of a function. No function here does anything.

ghost use Rattle.zic_zones.specs.Laws.{LocalTimesResolve, RepliesAgree};

use zic_files::laws::files_stay;

/// States that the files of a tree's replies agree with what was learnt of the first of them.
pub fn replies_agree()
    ensures { RepliesAgree }
{
    files_stay();
}

/// States that the function `resolved` gives what each choice means by the local times of a file.
pub fn local_times_resolve()
    ensures { LocalTimesResolve }
{}
