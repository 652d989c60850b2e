//! Laws of journals.
ghost use Rattle.span_tracing_shared.specs.JournalLaws.{JournalsCompose, LeftOutMakeNoDifference, RepliesCount};

/// What a journal leaves and answers is what its beginning leaves and answers, and then what the rest does from there.
#[tactic(auto, using(crate::proofs::Journals::skeletons_join, crate::proofs::Journals::replies_join))]
pub fn journals_compose()
    ensures { JournalsCompose }
{}

/// A journal without its steps that found no memory, or had to wait while a line is held, leaves the same skeleton.
pub fn left_out_make_no_difference()
    ensures { LeftOutMakeNoDifference }
{}

/// What the machine itself answers counts: it knows neither memory nor held lines. So whatever follows it shows so that its steps count.
#[tactic(auto, using(crate::proofs::MachineReplies::reply_counts))]
pub fn replies_count()
    ensures { RepliesCount }
{}
