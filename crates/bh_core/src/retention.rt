ghost use Rattle.std.specs.Prelude.{◌≡◌};
ghost use Rattle.bh_model.specs.Retention as spec;

use bh_types::moment::Moment;
use bh_types::refusal::Refusal;

/// Whether a version may get this retention date at a moment; `present` is the date that it has
/// already (Amazon S3 API Reference, PutObjectRetention; User Guide, "Compliance mode"). Fails with
/// [`Refusal::InvalidRequest`] if it isn't `able` to have one, as in a bucket that is not locked.
/// Fails with [`Refusal::InvalidArgument`] if the date is invalid, which is `None`, or not after
/// the moment. Fails with [`Refusal::AccessDenied`] if it is before the present date.
pub fn decide_retain(
    able: bool,
    present: Option<Moment>,
    until: Option<Moment>,
    at: Moment,
) -> Result<(), Refusal>
    ensures { result ≡ spec.may_retain able present until at }
{
    if !able {
        return Err(Refusal::InvalidRequest);
    }
    let Some(until) = until else {
        return Err(Refusal::InvalidArgument);
    };
    if until.seconds() <= at.seconds() {
        return Err(Refusal::InvalidArgument);
    }
    match present {
        Some(present) if until.seconds() < present.seconds() => Err(Refusal::AccessDenied),
        _ => Ok(()),
    }
}

/// The date of a new version at a moment, if its request has one; the inner `None` is an invalid
/// date. Fails as [`decide_retain`] does.
pub fn first_date(
    locked: bool,
    given: Option<Option<Moment>>,
    at: Moment,
) -> Result<Option<Moment>, Refusal>
    ensures { result ≡ spec.first_date locked given at }
{
    let Some(until) = given else {
        return Ok(None);
    };
    match until {
        Some(date) => {
            decide_retain(locked, None, Some(date), at)?;
            Ok(Some(date))
        }
        None => {
            decide_retain(locked, None, None, at)?;
            Ok(None)
        }
    }
}

/// Whether a version with this date may be deleted at a moment: from the date on.
pub fn may_go(date: Option<Moment>, at: Moment) -> bool
    ensures { result ≡ spec.may_go date at }
{
    match date {
        Some(date) => date.seconds() <= at.seconds(),
        None => true,
    }
}
