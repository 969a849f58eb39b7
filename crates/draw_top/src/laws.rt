ghost use Rattle.draw_top.specs.Laws.{OneAnswer, AnswerExists, AnswerOrRefusal};

use offer_engine::law_offer_exists;

/// An input has at most one answer text.
pub fn law_one_answer()
    ensures { OneAnswer }
{}

/// An input that has a draw file has an answer text.
pub fn law_answer_exists()
    ensures { AnswerExists }
{
    law_offer_exists();
}

/// No input is answered and refused.
pub fn law_answer_or_refusal()
    ensures { AnswerOrRefusal }
{}
