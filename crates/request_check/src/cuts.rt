ghost use Rattle.request_check.specs.Cuts.{CutsEnd, CutsLast};

/// The text before and after the last place of a mark.
#[tactic(auto, using(crate::proofs::CutLemmas::cuts_last))]
pub fn cut_last<'a>(text: &'a str, mark: &str) -> Option<(&'a str, &'a str)>
    ensures { CutsLast mark.now text.now result }
{
    text.rsplit_once(mark)
}

/// What stands before the end of a text, where it has this end.
#[tactic(auto, using(crate::proofs::CutLemmas::cuts_end))]
pub fn cut_end<'a>(text: &'a str, end: &str) -> Option<&'a str>
    ensures { CutsEnd end.now text.now result }
{
    text.strip_suffix(end)
}
