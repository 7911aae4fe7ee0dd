// The spans of a chunk's name, at a place that the caller has tested.

ghost use Rattle.std.specs.Prelude.{◌≡◌, ◌+◌, ◌≤◌, length};
ghost use Rattle.endian.specs.Place.{paste};
ghost use Rattle.refusal.specs.Buffer.{written, left_by};
ghost use Rattle.names.specs.chunks.Spans.{span_of, span_text, two_text, spans_text};
ghost use Rattle.names.specs.chunks.Chunks.{bounds_name};

use crate::digits::Signed;
use endian;
use morton::bounds::Bounds;
use refusal::Refusal;

// Where a cell begins and ends on one axis.
#[derive(Clone, Copy)]
pub struct Span {
    pub begin: Signed,
    pub end: Signed,
}

fn span_of(begin: i64, end: i64) -> Span
    ensures { result ≡ span_of begin end }
{
    let b = crate::digits::signed_of(begin);
    let e = crate::digits::signed_of(end);
    Span { begin: b, end: e }
}

fn span_len(s: Span) -> usize
    ensures { (result ≡ length (span_text s)) × (result ≤ 43) }
{
    let b = s.begin;
    let e = s.end;
    crate::digits::signed_len(b) + 1 + crate::digits::signed_len(e)
}

fn put_span(out: &mut [u8], at: usize, s: Span) -> usize
    requires { at + length (span_text s) ≤ length out.old }
    ensures value { result ≡ at + length (span_text s) }
    ensures out_after { out.new ≡ paste at (span_text s) out.old }
{
    let b = s.begin;
    let e = s.end;
    let m = crate::digits::put_signed(out, at, b);
    endian::put_byte(out, m, b'-');
    crate::digits::put_signed(out, m + 1, e)
}

fn two_len(y: Span, z: Span) -> usize
    ensures { (result ≡ length (two_text y z)) × (result ≤ 87) }
{
    span_len(y) + 1 + span_len(z)
}

fn put_two(out: &mut [u8], at: usize, y: Span, z: Span) -> usize
    requires { at + length (two_text y z) ≤ length out.old }
    ensures value { result ≡ at + length (two_text y z) }
    ensures out_after { out.new ≡ paste at (two_text y z) out.old }
{
    let m = put_span(out, at, y);
    endian::put_byte(out, m, b'_');
    put_span(out, m + 1, z)
}

fn spans_len(x: Span, y: Span, z: Span) -> usize
    ensures { (result ≡ length (spans_text x y z)) × (result ≤ 131) }
{
    span_len(x) + 1 + two_len(y, z)
}

fn put_spans(out: &mut [u8], at: usize, x: Span, y: Span, z: Span) -> usize
    requires { at + length (spans_text x y z) ≤ length out.old }
    ensures value { result ≡ at + length (spans_text x y z) }
    ensures out_after { out.new ≡ paste at (spans_text x y z) out.old }
{
    let m = put_span(out, at, x);
    endian::put_byte(out, m, b'_');
    put_two(out, m + 1, y, z)
}

// The spans' text at the front of the buffer.
fn spans_name(x: Span, y: Span, z: Span, out: &mut [u8]) -> Result<usize, Refusal>
    ensures value { result ≡ written (spans_text x y z) out.old }
    ensures out_after { out.new ≡ left_by (spans_text x y z) out.old }
{
    if out.len() < spans_len(x, y, z) {
        return Err(Refusal::NoRoom);
    }
    Ok(put_spans(out, 0, x, y, z))
}

// The name of a chunk whose bounds are known.
pub fn bounds_name(bounds: Bounds, out: &mut [u8]) -> Result<usize, Refusal>
    ensures value { result ≡ written (bounds_name bounds) out.old }
    ensures out_after { out.new ≡ left_by (bounds_name bounds) out.old }
{
    let b = bounds.begin;
    let e = bounds.end;
    spans_name(span_of(b.x, e.x), span_of(b.y, e.y), span_of(b.z, e.z), out)
}
