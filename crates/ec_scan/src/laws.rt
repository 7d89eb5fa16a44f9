//! Laws of scans. Each function does nothing: its contract is the law.
ghost use Rattle.ec_scan.specs.Laws.{HarmlessActions};
ghost use Rattle.ec_scan.specs.Showing.{ReadsFindWords};

use ec_sii::laws::reads_show_words;

/// No frame of a scan downloads, moves process data, or asks for a state above PREOP.
pub fn harmless_actions()
    ensures { HarmlessActions }
{}

/// What an idle SII port shows after a read is read as the two words at its address.
pub fn reads_find_words()
    ensures { ReadsFindWords }
{
    reads_show_words();
}
