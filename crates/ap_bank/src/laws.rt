//! Laws of the definitions. They do nothing: their contracts are what they say.
ghost use Rattle.ap_bank.specs.Border.{BankGoesOn, RegsGiveBorder};
ghost use Rattle.ap_bank.specs.FileBorder.{BankedFilesArePlaced, FilesGiveBorder, FilesGoOn, FilesShowReads, RestsAreOff};

/// Registers that were declared and driven stay so where the draft grows.
pub fn bank_goes_on()
    ensures { BankGoesOn }
{}

/// Registers that are declared and driven by the nets that show the writes are what the border asks.
pub fn regs_give_the_border()
    ensures { RegsGiveBorder }
{}

/// Register files that were placed stay so where the draft grows.
pub fn files_go_on()
    ensures { FilesGoOn }
{}

/// Placed over the nets that show the writes they are what the border asks.
pub fn files_give_the_border()
    ensures { FilesGiveBorder }
{}

/// The nets at a file's read ports have the values of the instance's ports: of its index, and of the cell there.
pub fn files_show_reads()
    ensures { FilesShowReads }
{}

/// A file that was banked, with its module and the names of what was given, is placed over the nets that show the writes.
pub fn banked_files_are_placed()
    ensures { BankedFilesArePlaced }
{}

/// A port at rest is never on.
pub fn rests_are_off()
    ensures { RestsAreOff }
{}
