use bh_docs::Usage;
use bh_http::response::Response;
use bh_storage::answer::FoundVersion;

/// The answer to an operator's command that was not refused.
#[derive(Drop)]
pub enum CommandAnswer {
    /// It was done, and there is no value.
    Done,
    /// The tenant's usage.
    Used(Usage),
    /// The names of the tenant's access keys, in byte order.
    Keys(Vec<String>),
}

/// The answer to a tenant's operation that was not refused.
#[derive(Drop)]
pub enum Offer {
    /// A response that is complete.
    Whole(Response),
    /// An object, whose bytes are still to be read.
    Planned(FoundVersion),
}
