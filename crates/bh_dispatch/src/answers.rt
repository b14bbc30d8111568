//! The results of operations, as responses of a host's storage.
ghost use Rattle.std.specs.Prelude.{◌≡◌};
ghost use Rattle.std.specs.Result.{result_map_both};
ghost use Rattle.bh_storage.specs.Errors.{step_rejected};
ghost use Rattle.bh_dispatch.specs.Responses.{Responds, RespondsToBody, offer_as};

use bh_host::answers::Answered;
use bh_host::offer::Offer;
use bh_http::response::Response;
use bh_storage::error::{Outcome, StepError};
use bh_types::refusal::Refusal;
use bh_types::rejection::Rejection;
use std::alloc::Global;

/// The response to what a step returned.
pub fn told<T: Answered>(
    alloc: Global,
    outcome: Result<T, StepError<Refusal>>,
) -> Result<Response, StepError<Rejection>>
    ensures { Responds T.answer step_rejected outcome result }
{
    Ok(outcome?.response(alloc)?)
}

/// The response to what a step returned whose refusals have details.
pub fn told_with_details<T: Answered>(
    alloc: Global,
    outcome: Result<T, StepError<Rejection>>,
) -> Result<Response, StepError<Rejection>>
    ensures { Responds T.answer (λ error. error) outcome result }
{
    Ok(outcome?.response(alloc)?)
}

/// The response to what a step returned that receives a body.
pub fn received<T: Answered>(
    alloc: Global,
    outcome: Result<Outcome<T, Refusal>, StepError<Refusal>>,
) -> Result<Outcome<Response, Rejection>, StepError<Rejection>>
    ensures { RespondsToBody T.answer outcome result }
{
    match outcome? {
        Outcome::Done(value) => Ok(Outcome::Done(value.response(alloc)?)),
        Outcome::Spoilt(refusal) => Ok(Outcome::Spoilt(Rejection::from(refusal))),
    }
}

/// A response that is complete.
pub fn offered(
    outcome: Result<Outcome<Response, Rejection>, StepError<Rejection>>,
) -> Result<Outcome<Offer, Rejection>, StepError<Rejection>>
    ensures { result ≡ result_map_both offer_as (λ error. error) outcome }
{
    match outcome {
        Ok(Outcome::Done(response)) => Ok(Outcome::Done(Offer::Whole(response))),
        Ok(Outcome::Spoilt(rejection)) => Ok(Outcome::Spoilt(rejection)),
        Err(error) => Err(error),
    }
}
