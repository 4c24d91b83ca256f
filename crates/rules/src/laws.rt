// What holds over any run of calls; each function's contract is a theorem.
ghost use Rattle.rules.specs.Copies.{CopiesAddUp};
ghost use Rattle.rules.specs.Performed.{Promises};
ghost use Rattle.rules.specs.Promises.{ViewsAgree};
ghost use Rattle.rules.specs.Upheld.{RulesStand};

// In every run, over any line: an end that is in step with the registrar has the registrar's book, once it has read the
// registrar's frames that wait for it; the rules of the book are those that a serve entered and none later withdrew or
// ended with its membership; and every copy of a message put at a port was handed over, turned aside or lost, or waits.
pub fn promises()
    ensures views { ViewsAgree }
    ensures rules { RulesStand }
    ensures copies { CopiesAddUp }
    ensures together { Promises }
{}
