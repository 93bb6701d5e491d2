//! What is known of answers, and of what is shown of them.

ghost use Rattle.views.specs.Laws.{AnswersAreOne, ShownAreOne, TimesShowNothing};

use spans::one_list_of_spans;

/// In a state a pattern has at most one answer.
pub fn one_answer()
    ensures { AnswersAreOne }
{}

/// In a state at most one thing is what a request shows, whatever its view, but for how it was made.
pub fn one_shown()
    ensures { ShownAreOne }
{
    one_list_of_spans();
}

/// What is shown stays what the request asks for if it gets its times.
pub fn times_show_nothing()
    ensures { TimesShowNothing }
{}
