// A run of thirty calls, which shows that what is promised of every run is promised of something. There is no code here:
// the run stands in specs/, and what it shows is proved in proofs/.
#![tactic(auto)]

ghost use Rattle.shown.specs.Shown.{AllAnswered, AllReached, CopiesOfEachFate, RuleOffAndOn, ViewBehind, ViewFarBehind, ViewLeftBehind, ViewPutRight, ViewUndisturbed};

use rules::promises;

// The run is one from a new space, and its calls answer as it says. On its way: an end in step has a view that is not the
// book until it has read what waits, be it one frame or three; a lost frame of the registrar leaves a view behind, a full
// report puts it right, and a lost message disturbs no view; of four copies one is handed over, one lost, one turned
// aside, and one waits; a rule stands, is withdrawn, stands again, and ends with its member's membership.
pub fn worked_run()
    ensures reached { AllReached }
    ensures answered { AllAnswered }
    ensures behind { ViewBehind }
    ensures lost { ViewLeftBehind }
    ensures mended { ViewPutRight }
    ensures undisturbed { ViewUndisturbed }
    ensures far_behind { ViewFarBehind }
    ensures fates { CopiesOfEachFate }
    ensures rules { RuleOffAndOn }
{
    promises();
}
