//! Laws of the definitions.
ghost use Rattle.sm_lp.specs.Dictionary.{Dictionary};
ghost use Rattle.sm_lp.specs.Path.{IsDictionary, IsOnPath};
ghost use Rattle.sm_lp.specs.Laws.{OneDictionary, NoBasisReturns, PathEnds};

use sm_certificate::Program;

/// What holds of the path of any program. It does nothing: its contract is the laws. Each dictionary on the path has the
/// solutions of the program; a basis has one dictionary, in whatever order its rows and columns stand; no basis comes twice on
/// the path; and the path has fewer than 2^n dictionaries, where n is the number of columns and slacks.
pub fn path_laws(_program: &Program)
    ensures dictionary { (d : Dictionary) → IsOnPath _program.now d → IsDictionary _program.now d }
    ensures one { OneDictionary _program.now }
    ensures returns { NoBasisReturns _program.now }
    ensures ends { PathEnds _program.now }
{}
