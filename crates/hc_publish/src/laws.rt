//! Laws of what a copy shows. Each function does nothing, and its contract is a law. Nobody calls it.
ghost use Rattle.hc_publish.specs.Laws.{PlansOpen, ShowsWhatIsRead, ValuesAreLastAnswers};

/// A copy that applied a legal list of changes which gives a record's edits and good answers shows what the core with that
/// record has: its epoch, its line's table and variable places, and each datagram's data, as the core's answer to `Read`. A
/// variable's value, or the fault, follows from these.
pub fn shows_what_is_read()
    ensures { ShowsWhatIsRead }
{}

/// After a legal list a task gets a number as a variable's value exactly if the variable is an input of its own in the line,
/// whose datagram has a good answer since the last accepted edit. The number is that of the variable's bits in the data of the
/// last such answer.
pub fn values_are_last_answers()
    ensures { ValuesAreLastAnswers }
{}

/// A copy can be made of the plan of a project at its opening, and the copy's groups are the project's.
pub fn plans_open()
    ensures { PlansOpen }
{}
