//! What the checker answers.

use fold_theory::Verdict;
use run_theory::Rule;

/// Yes with the verdict that the certificate shows, or no with the first rule that it breaks.
#[derive(Clone, Copy, Debug, PartialEq, Eq, Drop)]
pub enum Check {
    Yes(Verdict),
    No(Rule),
}
