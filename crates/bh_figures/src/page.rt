//! The page that Prometheus reads (text format 0.0.4): each name begins with `bucketd_server_`.

ghost use Rattle.std.specs.Prelude.{◌≡◌, IfOk, decimal, flat_map};
ghost use Rattle.std.specs.String.{string_bytes};
ghost use Rattle.bh_figures.specs.Page as spec;

use crate::figures::{BOUNDS, CLASSES, Class, Figures, METHODS, Method};
use std::alloc::{AllocError, Global};
use std::fmt;

/// The bytes of a host's files; `None` where the system doesn't tell.
#[derive(Clone, Copy)]
pub struct Sizes {
    pub file: Option<u64>,
    /// Of its write-ahead log.
    pub log: Option<u64>,
}

/// What is read when the page is asked for.
#[derive(Clone, Copy)]
pub struct Readings {
    pub sizes: Sizes,
    /// The seconds since the server began; `None` where the system doesn't tell.
    pub uptime: Option<u64>,
}

/// Milliseconds, printed as seconds.
#[derive(Clone, Copy)]
struct Seconds(u64);

impl fmt::Display for Seconds {
    ghost use Rattle.std.specs.Prelude.{Some};
    ghost use Rattle.bh_figures.specs.Page.{seconds};

    ghost output = { λ it. Some (seconds it.0) };

    fn fmt<W: fmt::Write>(&self, f: &mut fmt::Formatter<W>) -> fmt::Result {
        let whole = self.0 / 1_000;
        let (tenths, hundredths, rest) = (self.0 / 100 % 10, self.0 / 10 % 10, self.0 % 10);
        write!(f, "{whole}.{tenths}{hundredths}{rest}")
    }
}

/// The whole page.
pub fn page_text(alloc: Global, figures: &Figures, readings: Readings) -> Result<String, AllocError>
    ensures { IfOk result (λ text. string_bytes text ≡ spec.page figures.now readings) }
{
    let requests = requests(alloc, figures)?;
    let times = times(alloc, figures)?;
    let traffic = traffic(alloc, figures)?;
    let sweeps = sweeps(alloc, figures)?;
    let state = state(alloc, figures, readings)?;
    format!(in alloc; "{requests}{times}{traffic}{sweeps}{state}")
}

/// The two lines that say what a metric is.
#[tactic(auto, unfolding(crate::specs::Page::head))]
fn head(alloc: Global, name: &str, help: &str, kind: &str) -> Result<String, AllocError>
    ensures { IfOk result (λ text. string_bytes text ≡ spec.head name.now help.now kind.now) }
{
    format!(in alloc; "# HELP bucketd_server_{name} {help}\n# TYPE bucketd_server_{name} {kind}\n")
}

/// A number that only grows.
#[tactic(auto, unfolding(crate::specs::Page::counter))]
fn counter(alloc: Global, name: &str, help: &str, number: u64) -> Result<String, AllocError>
    ensures { IfOk result (λ text. string_bytes text ≡ spec.counter name.now help.now (decimal number)) }
{
    let head = head(alloc, name, help, "counter")?;
    format!(in alloc; "{head}bucketd_server_{name} {number}\n")
}

/// A time that only grows, in milliseconds.
#[tactic(auto, unfolding(crate::specs::Page::counter))]
fn time_counter(alloc: Global, name: &str, help: &str, took: u64) -> Result<String, AllocError>
    ensures { IfOk result (λ text. string_bytes text ≡ spec.counter name.now help.now (spec.seconds took)) }
{
    let head = head(alloc, name, help, "counter")?;
    let took = Seconds(took);
    format!(in alloc; "{head}bucketd_server_{name} {took}\n")
}

/// A number that is left out where it isn't known.
fn gauge(alloc: Global, name: &str, help: &str, number: Option<u64>) -> Result<String, AllocError>
    ensures { IfOk result (λ text. string_bytes text ≡ spec.gauge name.now help.now number) }
{
    let Some(number) = number else {
        return Ok(String::new(alloc));
    };
    let head = head(alloc, name, help, "gauge")?;
    format!(in alloc; "{head}bucketd_server_{name} {number}\n")
}

#[tactic(auto, unfolding(crate::specs::Page::request_row))]
fn request_row(
    alloc: Global,
    figures: &Figures,
    method: Method,
    class: Class,
) -> Result<String, AllocError>
    ensures { IfOk result (λ text. string_bytes text ≡ spec.request_row figures.now method class) }
{
    let count = figures.count_of(method, class);
    let (method, class) = (method.word(), class.word());
    format!(in alloc;
        "bucketd_server_requests_total{{method=\"{method}\",status=\"{class}\"}} {count}\n"
    )
}

#[tactic(auto, unfolding(crate::specs::Page::method_rows))]
fn method_rows(alloc: Global, figures: &Figures, method: Method) -> Result<String, AllocError>
    ensures { IfOk result (λ text. string_bytes text ≡ spec.method_rows figures.now method) }
{
    rows_of_classes(alloc, figures, method, &CLASSES)
}

fn rows_of_classes(
    alloc: Global,
    figures: &Figures,
    method: Method,
    classes: &[Class],
) -> Result<String, AllocError>
    ensures { IfOk result (λ text. string_bytes text ≡ flat_map (spec.request_row figures.now method) classes.now) }
{
    let mut rows = String::new(alloc);
    for class in classes {
        let row = request_row(alloc, figures, method, *class)?;
        rows.push_str(row.as_str())?;
    }
    Ok(rows)
}

fn rows_of_methods(
    alloc: Global,
    figures: &Figures,
    methods: &[Method],
) -> Result<String, AllocError>
    ensures { IfOk result (λ text. string_bytes text ≡ flat_map (spec.method_rows figures.now) methods.now) }
{
    let mut rows = String::new(alloc);
    for method in methods {
        let more = method_rows(alloc, figures, *method)?;
        rows.push_str(more.as_str())?;
    }
    Ok(rows)
}

#[tactic(auto, unfolding(crate::specs::Page::requests))]
fn requests(alloc: Global, figures: &Figures) -> Result<String, AllocError>
    ensures { IfOk result (λ text. string_bytes text ≡ spec.requests figures.now) }
{
    let help = "Requests, by method and class of status.";
    let head = head(alloc, "requests_total", help, "counter")?;
    let rows = rows_of_methods(alloc, figures, &METHODS)?;
    format!(in alloc; "{head}{rows}")
}

#[tactic(auto, unfolding(crate::specs::Page::bucket_row))]
fn bucket_row(alloc: Global, figures: &Figures, bound: u64) -> Result<String, AllocError>
    ensures { IfOk result (λ text. string_bytes text ≡ spec.bucket_row figures.now bound) }
{
    let count = figures.within(bound);
    let bound = Seconds(bound);
    format!(in alloc; "bucketd_server_request_seconds_bucket{{le=\"{bound}\"}} {count}\n")
}

fn rows_of_bounds(alloc: Global, figures: &Figures, bounds: &[u64]) -> Result<String, AllocError>
    ensures { IfOk result (λ text. string_bytes text ≡ flat_map (spec.bucket_row figures.now) bounds.now) }
{
    let mut rows = String::new(alloc);
    for bound in bounds {
        let row = bucket_row(alloc, figures, *bound)?;
        rows.push_str(row.as_str())?;
    }
    Ok(rows)
}

#[tactic(auto, unfolding(crate::specs::Page::bucket_rows))]
fn bucket_rows(alloc: Global, figures: &Figures) -> Result<String, AllocError>
    ensures { IfOk result (λ text. string_bytes text ≡ spec.bucket_rows figures.now) }
{
    rows_of_bounds(alloc, figures, &BOUNDS)
}

/// The times of requests, as a histogram.
#[tactic(auto, unfolding(crate::specs::Page::times))]
fn times(alloc: Global, figures: &Figures) -> Result<String, AllocError>
    ensures { IfOk result (λ text. string_bytes text ≡ spec.times figures.now) }
{
    let help = "Time that requests were served.";
    let head = head(alloc, "request_seconds", help, "histogram")?;
    let rows = bucket_rows(alloc, figures)?;
    let sums = sums(alloc, figures)?;
    format!(in alloc; "{head}{rows}{sums}")
}

/// All requests, their seconds, and how many they are.
#[tactic(auto, unfolding(crate::specs::Page::sums))]
fn sums(alloc: Global, figures: &Figures) -> Result<String, AllocError>
    ensures { IfOk result (λ text. string_bytes text ≡ spec.sums figures.now) }
{
    let took = Seconds(figures.took);
    let count = figures.timed();
    format!(in alloc;
        "bucketd_server_request_seconds_bucket{{le=\"+Inf\"}} {count}\nbucketd_server_request_seconds_sum {took}\nbucketd_server_request_seconds_count {count}\n"
    )
}

/// Bytes that came and went, and operators' lines.
#[tactic(auto, unfolding(crate::specs::Page::traffic))]
fn traffic(alloc: Global, figures: &Figures) -> Result<String, AllocError>
    ensures { IfOk result (λ text. string_bytes text ≡ spec.traffic figures.now) }
{
    let received = counter(
        alloc,
        "received_bytes_total",
        "Bytes of requests.",
        figures.received,
    )?;
    let sent = counter(
        alloc,
        "sent_bytes_total",
        "Bytes of responses.",
        figures.sent,
    )?;
    let lines = counter(alloc, "lines_total", "Lines of operators.", figures.lines)?;
    format!(in alloc; "{received}{sent}{lines}")
}

#[tactic(auto, unfolding(crate::specs::Page::sweeps))]
fn sweeps(alloc: Global, figures: &Figures) -> Result<String, AllocError>
    ensures { IfOk result (λ text. string_bytes text ≡ spec.sweeps figures.now) }
{
    let help = "Steps of the server's own sweeps.";
    let steps = counter(alloc, "sweep_steps_total", help, figures.steps)?;
    let took = time_counter(
        alloc,
        "sweep_seconds_total",
        "Time of these steps.",
        figures.swept,
    )?;
    format!(in alloc; "{steps}{took}")
}

/// What the host and its server are like now.
#[tactic(auto, unfolding(crate::specs::Page::state))]
fn state(alloc: Global, figures: &Figures, readings: Readings) -> Result<String, AllocError>
    ensures { IfOk result (λ text. string_bytes text ≡ spec.state figures.now readings) }
{
    let help = "Seconds since the server began.";
    let uptime = gauge(alloc, "uptime_seconds", help, readings.uptime)?;
    let help = "The last timestamp since the start, in seconds since 1970.";
    let stamp = gauge(alloc, "last_stamp_seconds", help, figures.last_stamp())?;
    let files = files(alloc, readings.sizes)?;
    let garbage = garbage(alloc, figures)?;
    let cache = cache(alloc, figures)?;
    format!(in alloc; "{uptime}{stamp}{files}{garbage}{cache}")
}

/// How large its files are.
#[tactic(auto, unfolding(crate::specs::Page::files))]
fn files(alloc: Global, sizes: Sizes) -> Result<String, AllocError>
    ensures { IfOk result (λ text. string_bytes text ≡ spec.files sizes) }
{
    let file = gauge(alloc, "file_bytes", "Bytes of the host's file.", sizes.file)?;
    let help = "Bytes of its write-ahead log.";
    let log = gauge(alloc, "log_bytes", help, sizes.log)?;
    format!(in alloc; "{file}{log}")
}

/// How its cache of blocks is used.
#[tactic(auto, unfolding(crate::specs::Page::cache))]
fn cache(alloc: Global, figures: &Figures) -> Result<String, AllocError>
    ensures { IfOk result (λ text. string_bytes text ≡ spec.cache figures.now) }
{
    let help = "Blocks that were read from the cache.";
    let hits = counter(alloc, "cache_hits_total", help, figures.hits)?;
    let help = "Blocks that were read from their rows, to be cached.";
    let misses = counter(alloc, "cache_misses_total", help, figures.misses)?;
    format!(in alloc; "{hits}{misses}")
}

/// What may be swept, and how much of it may stay.
#[tactic(auto, unfolding(crate::specs::Page::garbage))]
fn garbage(alloc: Global, figures: &Figures) -> Result<String, AllocError>
    ensures { IfOk result (λ text. string_bytes text ≡ spec.garbage figures.now) }
{
    let help = "Bytes of blocks that no reference names, by the last count.";
    let bytes = gauge(alloc, "garbage_bytes", help, figures.garbage)?;
    let help = "Bytes of such blocks that may stay before a sweep begins.";
    let keep = gauge(alloc, "keep_garbage_bytes", help, figures.keep)?;
    format!(in alloc; "{bytes}{keep}")
}
