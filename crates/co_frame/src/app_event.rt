//! An event of a device's application.

ghost use Rattle.std.specs.Prelude.{◌≡◌};
ghost use Rattle.co_frame.specs.AppEvents.{map_bytes};

use co_value::Key;

/// An event of a device's application. `B` has the bytes of a write: a slice at a device, pairs of
/// hexadecimal digits in a line of a trace.
#[derive(Clone, Copy, Drop)]
pub enum AppEvent<B> {
    /// It writes these bytes into an entry, even if SDO clients may only read it.
    Write(Key, B),
    /// An event of the TPDO with this number.
    Event(u16),
    /// The value of this entry changed: an event of each active TPDO that maps it.
    Changed(Key),
    /// An error is raised: its emergency error code, the bits that it sets in the error register
    /// besides bit 0, and the manufacturer-specific five bytes (CiA 301, 7.2.7). Code 0 is refused.
    Raise(u16, u8, [u8; 5]),
    /// Errors are gone: these bits of the error register are cleared.
    Clear(u8),
}

impl<B> AppEvent<B> {
    /// The same event; if it is a write, then of these bytes.
    pub fn with_bytes<'b>(&self, bytes: &'b [u8]) -> AppEvent<&'b [u8]>
        ensures { map_bytes (λ slice. slice.now) result ≡ map_bytes (λ old. bytes.now) self.now }
    {
        match self {
            AppEvent::Write(key, _) => AppEvent::Write(*key, bytes),
            AppEvent::Event(number) => AppEvent::Event(*number),
            AppEvent::Changed(key) => AppEvent::Changed(*key),
            AppEvent::Raise(code, bits, extra) => AppEvent::Raise(*code, *bits, *extra),
            AppEvent::Clear(bits) => AppEvent::Clear(*bits),
        }
    }
}
