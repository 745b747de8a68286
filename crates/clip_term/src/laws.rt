// Laws of the definitions, each the contract of a function with an empty body.
ghost use Rattle.clip_term.specs.BlankExamples.{BlankRows};
ghost use Rattle.clip_term.specs.Time.{WeavesAgain};
ghost use Rattle.clip_term.specs.Filters.{FiltersAreListed};
ghost use Rattle.clip_term.specs.JoinExamples.{JoinRows};
ghost use Rattle.clip_term.specs.RowExamples.{OtherRows};
ghost use Rattle.clip_term.specs.SoftExamples.{SoftRows};
ghost use Rattle.clip_term.specs.SpaceExamples.{SpaceRows};
ghost use Rattle.clip_term.specs.TimeExamples.{TimeRows};
ghost use Rattle.clip_term.specs.Terms.{AsksInRange, ChecksLawful, MakesPictures, SoundLawful};

/// What a filter makes of its inputs' pictures is the clip's picture.
#[tactic(auto, using(crate::proofs::PictureLemmas::makes_pictures))]
pub fn makes_pictures()
    ensures { MakesPictures }
{}

/// What a check accepts is lawful, where the op is sound and its clips are lawful.
pub fn checks_lawful()
    ensures { ChecksLawful }
{}

/// What a filter asks are frames of its inputs.
#[tactic(auto, using(crate::proofs::AskedLemmas::asks_in_range))]
pub fn asks_in_range()
    ensures { AsksInRange }
{}

/// The info of a sound clip is lawful.
pub fn sound_lawful()
    ensures { SoundLawful }
{}

/// Fields that are separated and woven again are the clip.
pub fn weaves_again()
    ensures { WeavesAgain }
{}

/// Each filter is found by its number and by its names.
#[tactic(auto, using(crate::proofs::FilterLemmas::filters_are_listed))]
pub fn filters_are_listed()
    ensures { FiltersAreListed }
{}

/// Worked rows of the filters, each computed.
#[tactic(auto, unfolding(crate::specs::Terms::info_of, crate::specs::Terms::infos_of, crate::specs::Terms::term_sample, crate::specs::Terms::term_samples, fv_plane::specs::Picture::picture_from, fv_plane::specs::Info::gcd))]
pub fn examples()
    ensures time { TimeRows }
    ensures space { SpaceRows }
    ensures join { JoinRows }
    ensures soft { SoftRows }
    ensures blank { BlankRows }
    ensures others { OtherRows }
{}
