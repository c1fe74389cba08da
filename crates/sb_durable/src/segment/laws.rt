//! What holds of the definitions alone: each law is the contract of a function that does nothing.
ghost use Rattle.sb_durable.specs.Chain.{CrashesEndShut, CutFilesStand, FlipsShutNoGate, OneEndOneSegment, OneFileOneSegment, WhatIsReadIsBound};
ghost use Rattle.sb_durable.specs.Row.{BegunBehind, NewerAreARow, OneEndOneRow, OneFolderOneRow, OnlyTheNewestIsWritten};

/// One digest at the end binds all of a segment.
pub fn one_end_one_segment()
    ensures { OneEndOneSegment }
{}

/// A file stands for one segment at most.
pub fn one_file_one_segment()
    ensures { OneFileOneSegment }
{}

/// Contents that were read from the first place to the end have the end's digest.
pub fn what_is_read_is_bound()
    ensures { WhatIsReadIsBound }
{}

/// A file that is cut at any byte has not begun, or it stands for the first contents.
pub fn cut_files_stand()
    ensures { CutFilesStand }
{}

/// One digest at the end of a row binds all its segments.
pub fn one_end_one_row()
    ensures { OneEndOneRow }
{}

/// Files stand for one row at most.
pub fn one_folder_one_row()
    ensures { OneFolderOneRow }
{}

/// Where the oldest segments of a row are gone, a row is left.
pub fn newer_are_a_row()
    ensures { NewerAreARow }
{}

/// What a crash leaves of an append to the newest segment, the folder has before or after it.
pub fn only_the_newest_is_written()
    ensures { OnlyTheNewestIsWritten }
{}

/// What a crash leaves of a segment that is begun behind the newest, the folder holds as before.
pub fn begun_behind()
    ensures { BegunBehind }
{}

/// No flipped bit shuts a gate that was written: a block's, or a file's.
pub fn flips_shut_no_gate()
    ensures { FlipsShutNoGate }
{}

/// What a crash leaves of an append has a shut gate behind its last block.
pub fn crashes_end_shut()
    ensures { CrashesEndShut }
{}
