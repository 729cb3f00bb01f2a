//! Laws of answers.
ghost use Rattle.edr_serve.specs.Answers.{PageHasAnswer, AnswerIsOne, RefusalIsTheFirst};

use edr_query::target_is_one;
use edr_select::refusal_is_least;

/// An edition has an answer to each page: a text where no refusal applies, and else the first that does.
pub fn pages_have_answers()
    ensures { PageHasAnswer }
{
    refusal_is_least();
}

/// An edition has at most one answer to a target: one text, or one refusal, and never both.
pub fn answer_is_one()
    ensures { AnswerIsOne }
{
    target_is_one();
}

/// The refusal that is answered is the least by its number of all that apply to the target and to the page that it asks for;
/// where a text is answered, none applies.
pub fn refusal_is_the_first()
    ensures { RefusalIsTheFirst }
{
    target_is_one();
}
