//! What a server counts from its start on.

ghost use Rattle.std.specs.Prelude.{◌≡◌, ◌<◌, IfSome, length, nat_le, position};
ghost use Rattle.bh_figures.specs.Figures as spec;

use bh_types::moment::Moment;

/// A request's method.
#[derive(Clone, Copy)]
pub enum Method {
    Get,
    Head,
    Put,
    Post,
    Delete,
    Other,
}

/// What a request was answered, by the first digit of its status.
#[derive(Clone, Copy)]
pub enum Class {
    Well,
    Elsewhere,
    Refused,
    Failed,
    /// It was cut off before it was answered.
    Unanswered,
}

pub(crate) const METHODS: [Method; 6] = [
    Method::Get,
    Method::Head,
    Method::Put,
    Method::Post,
    Method::Delete,
    Method::Other,
];

pub(crate) const CLASSES: [Class; 5] = [
    Class::Well,
    Class::Elsewhere,
    Class::Refused,
    Class::Failed,
    Class::Unanswered,
];

/// The milliseconds up to which the buckets of a request's time go; the last bucket has no bound.
pub(crate) const BOUNDS: [u64; 12] = [1, 2, 5, 10, 25, 50, 100, 250, 500, 1_000, 5_000, 30_000];

impl Method {
    /// The method of a request, by its first bytes.
    pub fn of(request: &[u8]) -> Method
        ensures { result ≡ spec.method_of request.now }
    {
        if request.starts_with(b"GET ") {
            return Method::Get;
        }
        if request.starts_with(b"HEAD ") {
            return Method::Head;
        }
        if request.starts_with(b"PUT ") {
            return Method::Put;
        }
        if request.starts_with(b"POST ") {
            return Method::Post;
        }
        if request.starts_with(b"DELETE ") {
            return Method::Delete;
        }
        Method::Other
    }

    fn place(self) -> usize
        ensures place { result ≡ spec.method_place self }
        ensures within { result < 6 }
    {
        match self {
            Method::Get => 0,
            Method::Head => 1,
            Method::Put => 2,
            Method::Post => 3,
            Method::Delete => 4,
            Method::Other => 5,
        }
    }

    pub(crate) fn word<'a>(self) -> &'a str
        ensures { result.now ≡ spec.method_word self }
    {
        match self {
            Method::Get => "GET",
            Method::Head => "HEAD",
            Method::Put => "PUT",
            Method::Post => "POST",
            Method::Delete => "DELETE",
            Method::Other => "other",
        }
    }
}

impl Class {
    /// The class of a response, by its first bytes (`HTTP/1.1 200 OK`).
    pub fn of(response: &[u8]) -> Class
        ensures { result ≡ spec.class_of response.now }
    {
        match response.get(9).copied() {
            Some(b'2') => Class::Well,
            Some(b'3') => Class::Elsewhere,
            Some(b'4') => Class::Refused,
            Some(b'5') => Class::Failed,
            _ => Class::Unanswered,
        }
    }

    fn place(self) -> usize
        ensures place { result ≡ spec.class_place self }
        ensures within { result < 5 }
    {
        match self {
            Class::Well => 0,
            Class::Elsewhere => 1,
            Class::Refused => 2,
            Class::Failed => 3,
            Class::Unanswered => 4,
        }
    }

    pub(crate) fn word<'a>(self) -> &'a str
        ensures { result.now ≡ spec.class_word self }
    {
        match self {
            Class::Well => "2xx",
            Class::Elsewhere => "3xx",
            Class::Refused => "4xx",
            Class::Failed => "5xx",
            Class::Unanswered => "none",
        }
    }
}

/// Counts since the start of a server. None goes beyond the greatest number.
#[derive(Clone, Copy)]
pub struct Figures {
    /// How many requests were served, by method and class.
    pub(crate) requests: [[u64; 5]; 6],
    /// How many took a time of each bucket, and the milliseconds of all of them.
    pub(crate) buckets: [u64; 13],
    pub(crate) took: u64,
    /// Bytes of requests, and of responses.
    pub(crate) received: u64,
    pub(crate) sent: u64,
    /// Lines of operators.
    pub(crate) lines: u64,
    /// Steps of the server's own sweeps, and their milliseconds.
    pub(crate) steps: u64,
    pub(crate) swept: u64,
    /// The last moment at which an event counted; `None` before the first one.
    pub(crate) stamp: Option<Moment>,
    /// How many bytes nobody needs by the last count, and how many of them may stay; `None` before it.
    pub(crate) garbage: Option<u64>,
    pub(crate) keep: Option<u64>,
    /// How many blocks were read from the cache, and how many from their rows.
    pub(crate) hits: u64,
    pub(crate) misses: u64,
}

impl Figures {
    /// Of a server that begins.
    pub fn new() -> Figures
        ensures { result ≡ spec.none }
    {
        Figures {
            requests: [[0; 5]; 6],
            buckets: [0; 13],
            took: 0,
            received: 0,
            sent: 0,
            lines: 0,
            steps: 0,
            swept: 0,
            stamp: None,
            garbage: None,
            keep: None,
            hits: 0,
            misses: 0,
        }
    }

    /// Counts a request, by its first bytes and those of its response, with all their bytes and the
    /// milliseconds that it took.
    pub fn count_request(
        &mut self,
        request: &[u8],
        response: &[u8],
        received: u64,
        sent: u64,
        took: u64,
    )
        ensures { self.new ≡ spec.with_request self.old (spec.method_of request.now) (spec.class_of response.now) received sent took }
    {
        self.count_class(Method::of(request), Class::of(response));
        self.count_time(took);
        self.received = self.received.saturating_add(received);
        self.sent = self.sent.saturating_add(sent);
    }

    fn count_class(&mut self, method: Method, class: Class)
        ensures { self.new ≡ spec.with_class self.old method class }
    {
        let row = &mut self.requests[method.place()];
        row[class.place()] = row[class.place()].saturating_add(1);
    }

    fn count_time(&mut self, took: u64)
        ensures { self.new ≡ spec.with_time self.old took }
    {
        let place = bucket_of(took);
        self.buckets[place] = self.buckets[place].saturating_add(1);
        self.took = self.took.saturating_add(took);
    }

    /// Counts an operator's line.
    pub fn count_line(&mut self)
        ensures { self.new ≡ spec.with_line self.old }
    {
        self.lines = self.lines.saturating_add(1);
    }

    /// Keeps the moment of an event, if it counted.
    pub fn note_stamp(&mut self, stamp: Option<Moment>)
        ensures { self.new ≡ spec.with_stamp self.old stamp }
    {
        if stamp.is_some() {
            self.stamp = stamp;
        }
    }

    /// Keeps how many bytes nobody needs, and how many of them may stay.
    pub fn note_garbage(&mut self, bytes: u64, keep: u64)
        ensures { self.new ≡ spec.with_garbage self.old bytes keep }
    {
        self.garbage = Some(bytes);
        self.keep = Some(keep);
    }

    /// Keeps how many blocks were read from the cache so far, and how many from their rows.
    pub fn note_cache(&mut self, hits: u64, misses: u64)
        ensures { self.new ≡ spec.with_cache self.old hits misses }
    {
        self.hits = hits;
        self.misses = misses;
    }

    /// How many requests took at most so many milliseconds.
    pub(crate) fn within(&self, bound: u64) -> u64
        ensures { result ≡ spec.within self.now bound }
    {
        total(&self.buckets[..bucket_of(bound) + 1])
    }

    /// The last moment at which an event counted, in seconds since 1970.
    pub(crate) fn last_stamp(&self) -> Option<u64>
        ensures { result ≡ self.now.stamp }
    {
        match self.stamp {
            Some(stamp) => Some(stamp.seconds()),
            None => None,
        }
    }

    /// How many requests were served.
    pub(crate) fn timed(&self) -> u64
        ensures { result ≡ spec.total self.now.buckets }
    {
        total(&self.buckets)
    }

    /// How many requests of a method were answered so.
    pub(crate) fn count_of(&self, method: Method, class: Class) -> u64
        ensures { result ≡ spec.count_of self.now method class }
    {
        self.requests[method.place()][class.place()]
    }

    /// Counts a step of a sweep, with its milliseconds.
    pub fn count_step(&mut self, took: u64)
        ensures { self.new ≡ spec.with_step self.old took }
    {
        self.steps = self.steps.saturating_add(1);
        self.swept = self.swept.saturating_add(took);
    }
}

/// The bucket of a time.
fn bucket_of(took: u64) -> usize
    ensures place { result ≡ spec.bucket_of took }
    ensures within { result < 13 }
{
    bucket_in(&BOUNDS, took).unwrap_or(12)
}

/// The first of these bounds that a time is within.
fn bucket_in(bounds: &[u64], took: u64) -> Option<usize>
    ensures place { result ≡ position (λ bound. nat_le took bound) bounds.now }
    ensures within { IfSome result (λ place. place < length bounds.now) }
{
    bounds.iter().position(|bound| took <= *bound)
}

/// The sum of counts.
fn total(counts: &[u64]) -> u64
    ensures { result ≡ spec.total counts.now }
{
    let mut sum: u64 = 0;
    for count in counts {
        sum = sum.saturating_add(*count);
    }
    sum
}
