ghost use Rattle.std.specs.Prelude.{◌≡◌};
ghost use Rattle.bh_http.specs.Answers.{bare_refusal};
ghost use Rattle.bh_http.specs.Responses.{response_text};
ghost use Rattle.bh_types.specs.declared.refusal.Refusal.TheVariants as refusal;

/// The response if the clock's reading is above its limit. It allocates nothing.
pub const fn clock_out_of_range() -> &'static [u8]
    ensures { result.now ≡ response_text (bare_refusal refusal.ClockOutOfRange) }
{
    b"HTTP/1.1 500 Internal Server Error\r\ncontent-length: 0\r\nx-refusal: 30 ClockOutOfRange\r\nconnection: close\r\n\r\n"
}

/// The response if memory or the store failed. It allocates nothing.
pub const fn service_unavailable() -> &'static [u8]
    ensures { result.now ≡ response_text (bare_refusal refusal.ServiceUnavailable) }
{
    b"HTTP/1.1 503 Service Unavailable\r\ncontent-length: 0\r\nx-refusal: 31 ServiceUnavailable\r\nconnection: close\r\n\r\n"
}
