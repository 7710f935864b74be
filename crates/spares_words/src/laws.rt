//! The orders of `single` and `plan` for every text that a user may write.
//!
//! `order_of` is defined by `clap`'s rules. These laws say the same in terms of the words alone.
ghost use Rattle.spares_words.specs.Laws.{
  RefusesOtherCounts,
  RefusesSecondOption,
  TakesAnyWords,
  TakesJoinedAnywhere,
  TakesJoinedPlan,
  TakesOptionAnywhere,
  TakesTwoWords,
};

/// Two words that begin with no hyphen are the mean and the stock.
pub fn takes_two_words()
    ensures { TakesTwoWords }
{}

/// After two hyphens any two words are the mean and the stock.
pub fn takes_any_words()
    ensures { TakesAnyWords }
{}

/// `--variance V` may be before, between or after them.
pub fn takes_option()
    ensures { TakesOptionAnywhere }
{}

/// So may `--variance=V`, for any text V.
pub fn takes_joined_option()
    ensures { TakesJoinedAnywhere }
{}

/// One word, three words or an option with no value are refused.
pub fn refuses_other_counts()
    ensures { RefusesOtherCounts }
{}

/// A second variance is refused.
pub fn refuses_second_option()
    ensures { RefusesSecondOption }
{}

/// `plan --sites=F --parts=F --rates=F --budget=N --certificate=F` is taken for any texts F and N.
pub fn takes_joined_plan()
    ensures { TakesJoinedPlan }
{}
