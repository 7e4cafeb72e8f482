//! A page in front of a writer, so that a text needs few writes, and the same memory however long it is.

ghost use Rattle.std.specs.Prelude.{◌≡◌, ℕ, List, [], Option, None, Some, IfOk, OnOk, string_bytes};
ghost use Rattle.std.specs.Io.KnownBytes.{Appends};
ghost use Rattle.trace_platform.specs.Fronts.{AppendsFront, AppendsLess};
ghost use Rattle.trace_text.specs.declared.printing_fault.PrintFault.{PrintFault};
ghost use Rattle.trace_text.specs.declared.printing_fault.PrintFault.TheVariants.{Writer};
ghost use Rattle.trace_text.specs.PrintedPages.{IsOpen, Says};

use crate::page_bytes::PageBytes;
use crate::printing_fault::PrintFault;
use std::alloc::{AllocError, Global};
use std::io::Write;
use trace_platform::write_all;

/// How many bytes are held back before they are written.
const PAGE_BYTES: usize = 4096;

/// More than the digits of any number.
const MOST_DIGITS: usize = 128;

/// Bytes that were said and are not yet written. Nothing more is written after a fault.
#[derive(Drop)]
pub(crate) struct Page {
    pub(crate) bytes: PageBytes,
    /// Where the digits of a number are put together.
    pub(crate) digits: String,
    pub(crate) fault: Option<PrintFault>,
}

impl Page {
    pub(crate) fn new(alloc: Global) -> Result<Page, AllocError>
        ensures empty { IfOk result (λ page. page.bytes ≡ []) }
        ensures open { IfOk result IsOpen }
    {
        let bytes = PageBytes::new(alloc, PAGE_BYTES)?;
        let digits = String::with_capacity(alloc, MOST_DIGITS)?;
        Ok(Page {
            bytes,
            digits,
            fault: None,
        })
    }
}

/// Says these bytes.
#[inline(always)]
pub(crate) fn say_bytes<W: Write>(writer: &mut W, page: &mut Page, text: &[u8])
    ensures { Says (W.contents writer.old) page.old (W.contents writer.new) page.new text.now }
{
    if !page.bytes.put(text) {
        say_on_next(writer, page, text);
    }
}

/// Says this text.
#[inline(always)]
pub(crate) fn say<W: Write>(writer: &mut W, page: &mut Page, text: &str)
    ensures { Says (W.contents writer.old) page.old (W.contents writer.new) page.new text.now }
{
    say_bytes(writer, page, text.as_bytes());
}

/// Says bytes that have no room behind those of the page.
#[inline(never)]
fn say_on_next<W: Write>(writer: &mut W, page: &mut Page, text: &[u8])
    ensures { Says (W.contents writer.old) page.old (W.contents writer.new) page.new text.now }
{
    turn(writer, page);
    if !page.bytes.put(text) {
        write_past(writer, &mut page.fault, text);
    }
}

/// Says what the page has as digits, unless memory was wanting for them.
pub(crate) fn say_digits<W: Write>(writer: &mut W, page: &mut Page, written: Result<(), AllocError>)
    ensures { (text : List ℕ) → OnOk written (string_bytes page.old.digits ≡ text) → Says (W.contents writer.old) page.old (W.contents writer.new) page.new text }
{
    match written {
        Ok(()) => say_whole_digits(writer, page),
        Err(_) => want_memory(page),
    }
}

/// Says the digits that the page has.
fn say_whole_digits<W: Write>(writer: &mut W, page: &mut Page)
    ensures { Says (W.contents writer.old) page.old (W.contents writer.new) page.new (string_bytes page.old.digits) }
{
    if !page.bytes.put(page.digits.as_bytes()) {
        turn(writer, page);
        if !page.bytes.put(page.digits.as_bytes()) {
            write_past(writer, &mut page.fault, page.digits.as_bytes());
        }
    }
}

/// Of a page without a fault memory is wanting.
fn want_memory(page: &mut Page)
    ensures { (held : Option (List ℕ)) (text : List ℕ) → Says held page.old held page.new text }
{
    match page.fault {
        Some(_) => {}
        None => page.fault = Some(PrintFault::OutOfMemory),
    }
}

/// Writes what the page holds.
pub(crate) fn turn<W: Write>(writer: &mut W, page: &mut Page)
    ensures says { Says (W.contents writer.old) page.old (W.contents writer.new) page.new [] }
    ensures empty { page.new.bytes ≡ [] }
    ensures digits { page.new.digits ≡ page.old.digits }
{
    write_past(writer, &mut page.fault, page.bytes.as_slice());
    page.bytes.clear();
}

/// Writes bytes, unless there is a fault.
fn write_past<W: Write>(writer: &mut W, fault: &mut Option<PrintFault>, text: &[u8])
    ensures written { fault.new ≡ None → Appends (W.contents writer.old) (W.contents writer.new) text.now }
    ensures front { fault.old ≡ None → AppendsFront (W.contents writer.old) (W.contents writer.new) text.now }
    ensures less { fault.old ≡ None → fault.new ≡ Some Writer → AppendsLess (W.contents writer.old) (W.contents writer.new) text.now }
    ensures stays { (first : PrintFault) → fault.old ≡ Some first → (fault.new ≡ Some first) × Appends (W.contents writer.old) (W.contents writer.new) [] }
{
    match fault {
        Some(_) => {}
        None => {
            if !write_all(writer, text) {
                *fault = Some(PrintFault::Writer);
            }
        }
    }
}
