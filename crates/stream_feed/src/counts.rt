//! What a verdict counts for in a report: of each count, whether the verdict is one of it.

ghost use Rattle.std.specs.Prelude.{◌≡◌, ◌≤◌};
ghost use Rattle.corr_model.specs.PacketVerdicts.{is_refused, is_dropped, is_stale, is_undescribed, is_foreign, is_before_start, is_off_grid, is_wild, is_beyond, is_late, is_twice, is_used};
ghost use Rattle.corr_model.specs.Reports.{bit};

use corr_model::Verdict;

/// One where it holds.
pub(crate) fn one_if(holds: bool) -> u64
    ensures value { result ≡ bit holds }
    ensures most { result ≤ 1 }
{
    if holds { 1 } else { 0 }
}

pub(crate) fn is_refused(verdict: Verdict) -> bool
    ensures { result ≡ is_refused verdict }
{
    matches!(verdict, Verdict::Refused(_))
}

pub(crate) fn is_dropped(verdict: Verdict) -> bool
    ensures { result ≡ is_dropped verdict }
{
    matches!(verdict, Verdict::Dropped(_))
}

pub(crate) fn is_stale(verdict: Verdict) -> bool
    ensures { result ≡ is_stale verdict }
{
    matches!(verdict, Verdict::Stale)
}

pub(crate) fn is_undescribed(verdict: Verdict) -> bool
    ensures { result ≡ is_undescribed verdict }
{
    matches!(verdict, Verdict::Undescribed)
}

pub(crate) fn is_foreign(verdict: Verdict) -> bool
    ensures { result ≡ is_foreign verdict }
{
    matches!(verdict, Verdict::Foreign(_))
}

pub(crate) fn is_before_start(verdict: Verdict) -> bool
    ensures { result ≡ is_before_start verdict }
{
    matches!(verdict, Verdict::BeforeStart)
}

pub(crate) fn is_off_grid(verdict: Verdict) -> bool
    ensures { result ≡ is_off_grid verdict }
{
    matches!(verdict, Verdict::OffGrid)
}

pub(crate) fn is_wild(verdict: Verdict) -> bool
    ensures { result ≡ is_wild verdict }
{
    matches!(verdict, Verdict::Wild)
}

pub(crate) fn is_beyond(verdict: Verdict) -> bool
    ensures { result ≡ is_beyond verdict }
{
    matches!(verdict, Verdict::Beyond)
}

pub(crate) fn is_late(verdict: Verdict) -> bool
    ensures { result ≡ is_late verdict }
{
    matches!(verdict, Verdict::Late)
}

pub(crate) fn is_twice(verdict: Verdict) -> bool
    ensures { result ≡ is_twice verdict }
{
    matches!(verdict, Verdict::Twice)
}

pub(crate) fn is_used(verdict: Verdict) -> bool
    ensures { result ≡ is_used verdict }
{
    matches!(verdict, Verdict::Used(_, _))
}
