//! Reads lines, one after another, from a source that gives its bytes in any pieces.
ghost use Rattle.std.specs.Prelude.{◌≡◌, ◌≤◌, ◌^◌, IfOk, IfSome, IsOk, OnErr, true, false};
ghost use Rattle.tele_io.specs.Bytes.{HaveRisen, Keeps};
ghost use Rattle.tele_lines.specs.Buffers.{EndsAt, IsUnbroken, TellsEndOf, RefillsOnly, unread_of};

use crate::buffers::Buffer;
use crate::items::{Cause, Line, LineFault, Said, Version};
use crate::readings::{LONGEST, mode_after, read_line};
use memchr::memchr;
use tele_io::{Failed, Source};

/// The most bytes without a newline that may still be a good line: the last may be a carriage
/// return.
const UNDECIDED: usize = LONGEST + 1;

/// Reads lines from a source. Allocates nothing: a line is decided within 82 bytes.
#[derive(Drop)]
pub struct Lines {
    limit: u64,
    count: u64,
    mode: Option<Version>,
    buffer: Buffer,
    ended: bool,
    stop: Option<Cause>,
    ghost allowed: { count ≤ limit },
    ghost small: { limit ≤ 2 ^ 24 },
}

impl Lines {
    ghost use Rattle.std.specs.Prelude.{◌≡◌, ◌+◌, ◌<◌, ◌≤◌, ◌^◌, [], ◌∷◌, Some, None, IfOk, IfSome, IfNone, IsSome, IsOk, OnOk, OnErr, Ok, Err, true, false, length, take, drop};
    ghost use Rattle.tele_io.specs.Bytes.{HaveRisen, Keeps};
    ghost use Rattle.tele_lines.specs.Readings.{reading};
    ghost use Rattle.tele_lines.specs.Lines.{lines_of};
    ghost use Rattle.tele_lines.specs.Answer.{Bad, Good};
    ghost use Rattle.tele_lines.specs.Progress.{Continues, GoesTo, reads_given, read_at, version_of, mode_of, following, place_of, limit_of, count_of, stop_of, has_ended, kept_of, unread, TellsEnd, Waits, IsDone, TakesLine, MeetsLine, TakesAsNeeded, ShowsBad};
    ghost use Rattle.tele_lines.specs.Buffers.{EndsAt};

    /// Makes a reader that has read nothing and allows `limit` lines.
    pub fn new(limit: u64) -> Self
        requires some { 1 ≤ limit }
        requires few { limit ≤ 2 ^ 24 }

        ensures place { place_of result ≡ record { limit = limit; count = 0; mode = None } }
        ensures going { stop_of result ≡ None }
        ensures fresh { kept_of result ≡ [] }
        ensures unended { has_ended result ≡ false }
    {
        Lines {
            limit,
            count: 0,
            mode: None,
            buffer: Buffer::new(),
            ended: false,
            stop: None,
        }
    }

    /// Returns the version of the lines: `One`, unless the first line that said something was `V
    /// 2`.
    pub fn version(&self) -> Version
        ensures value { result ≡ version_of self.now }
    {
        self.mode.unwrap_or(Version::One)
    }

    /// Returns the next line that asks for something, once its end has been read.
    ///
    /// `Ok(None)` means that the input has ended and every line was read; later calls return it
    /// again without reading. A bad line ends the reading: this call and each later one return its
    /// number and its cause. `Read` is returned only if the source failed in this call; then no
    /// byte is lost, and a later call continues.
    pub fn next<S: Source>(&mut self, source: &mut S) -> Result<Option<Line>, LineFault>
        // The line is the first of the unread ones that asks for something; the lines after it stay
        // unread.
        ensures line { IfOk result (λ next. IfSome next (λ line.
            IfSome (unread self.old (S.left source.old)) (λ bytes.
            GoesTo (place_of self.old) (place_of self.new) (has_ended self.new)
            (Good line.number (version_of self.new) line.item ∷ []) bytes
            (unread self.new (S.left source.new))))) }
        ensures number { IfOk result (λ next. IfSome next
            (λ line. (count_of self.old < line.number) × (count_of self.new ≡ line.number))) }
        ensures allowed { count_of self.new ≤ limit_of self.new }

        // None of the unread lines asks for anything.
        ensures none { IfOk result (λ next. IfNone next (
            IfSome (unread self.old (S.left source.old)) (λ bytes.
            read_at (place_of self.old) (lines_of bytes) ≡ []))) }
        ensures done { IfOk result (λ next. IfNone next (IsDone self.new)) }
        ensures again { IsDone self.old → (result ≡ Ok None) × (source.new ≡ source.old) }

        // The first of the unread lines that says something is bad. The reader stays at it.
        ensures bad { (number : _) (cause : _) → result ≡ Err (LineFault.Bad number cause) →
            stop_of self.old ≡ None → IfSome (unread self.old (S.left source.old)) (λ bytes.
            read_at (place_of self.old) (lines_of bytes) ≡ Bad number cause ∷ []) }
        ensures stop { (number : _) (cause : _) → result ≡ Err (LineFault.Bad number cause) →
            (number ≡ count_of self.new + 1) × (stop_of self.new ≡ Some cause) }
        ensures skipped { (number : _) (cause : _) → result ≡ Err (LineFault.Bad number cause) →
            stop_of self.old ≡ None → IfSome (unread self.old (S.left source.old)) (λ bytes.
            GoesTo (place_of self.old) (place_of self.new) (has_ended self.new) [] bytes
            (unread self.new (S.left source.new))) }
        ensures shown { (number : _) (cause : _) → result ≡ Err (LineFault.Bad number cause) →
            stop_of self.old ≡ None → ShowsBad (place_of self.new) (kept_of self.new)
            (has_ended self.new) }
        ensures stopped { (cause : _) → stop_of self.old ≡ Some cause →
            (result ≡ Err (LineFault.Bad (count_of self.old + 1) cause)) ×
            (source.new ≡ source.old) }

        // The source failed. The lines skipped until then ask for nothing.
        ensures failed { result ≡ Err LineFault.Read →
            HaveRisen (S.faults source.old) (S.faults source.new) }
        ensures passed { result ≡ Err LineFault.Read →
            IfSome (unread self.old (S.left source.old)) (λ bytes.
            GoesTo (place_of self.old) (place_of self.new) (has_ended self.new) [] bytes
            (unread self.new (S.left source.new))) }
        ensures waiting { result ≡ Err LineFault.Read → Waits self.new }

        // In every case the source is read only while no line whose end was taken says anything.
        ensures sparing { IfSome (S.left source.old) (λ bytes.
            TakesAsNeeded (place_of self.old) (kept_of self.old) (has_ended self.old) bytes
            (S.left source.new)) }

        ensures going { OnOk result (stop_of self.new ≡ None) }
        ensures end { TellsEnd self.old (S.left source.old) →
            TellsEnd self.new (S.left source.new) }
        ensures ended { has_ended self.old ≡ true → has_ended self.new ≡ true }
        ensures limit { limit_of self.new ≡ limit_of self.old }
        ensures chosen { IfOk result (λ next. IfSome next (λ _.
            mode_of self.new ≡ Some (version_of self.new))) }
        ensures steady { IsSome (mode_of self.old) → mode_of self.new ≡ mode_of self.old }
        ensures counted { S.faults source.old ≤ S.faults source.new }
    {
        if let Some(cause) = self.stop {
            return Err(LineFault::Bad {
                line: self.count + 1,
                cause,
            });
        }
        loop {
            match self.advance(source) {
                Ok(Some(Said::Skips)) => {}
                Ok(Some(Said::Chooses(_))) => {}
                Ok(Some(Said::Asks(item))) => {
                    return Ok(Some(Line {
                        number: self.count,
                        item,
                    }));
                }
                Ok(Some(Said::Fails(cause))) => {
                    return Err(LineFault::Bad {
                        line: self.count + 1,
                        cause,
                    });
                }
                Ok(None) => return Ok(None),
                Err(Failed) => return Err(LineFault::Read),
            }
        }
    }

    /// Reads one line, whatever it says. Returns `None` at the end of the input.
    fn advance<S: Source>(&mut self, source: &mut S) -> Result<Option<Said>, Failed>
        requires going { self.old.stop ≡ None }

        ensures line { IfOk result (λ next. IfSome next (λ said. Continues said →
            IfSome (unread self.old (S.left source.old)) (λ bytes.
            GoesTo (place_of self.old) (place_of self.new) self.new.ended
            (reads_given (place_of self.old) said) bytes (unread self.new (S.left source.new))))) }
        ensures place { IfOk result (λ next. IfSome next (λ said. Continues said →
            place_of self.new ≡ following (place_of self.old) said)) }

        ensures none { IfOk result (λ next. IfNone next (
            IfSome (unread self.old (S.left source.old)) (λ bytes. bytes ≡ []))) }
        ensures done { IfOk result (λ next. IfNone next (IsDone self.new)) }
        ensures again { IsDone self.old → (result ≡ Ok None) × (source.new ≡ source.old) }

        ensures bad { (cause : _) → result ≡ Ok (Some (Said.Fails cause)) →
            IfSome (unread self.old (S.left source.old)) (λ bytes.
            read_at (place_of self.old) (lines_of bytes) ≡ Bad (self.old.count + 1) cause ∷ []) }
        ensures stop { (cause : _) → result ≡ Ok (Some (Said.Fails cause)) →
            (self.new.stop ≡ Some cause) × (place_of self.new ≡ place_of self.old) }
        ensures left { (cause : _) → result ≡ Ok (Some (Said.Fails cause)) →
            Keeps (unread self.old (S.left source.old)) (unread self.new (S.left source.new)) }
        ensures shown { (cause : _) → result ≡ Ok (Some (Said.Fails cause)) →
            ShowsBad (place_of self.new) (kept_of self.new) (has_ended self.new) }
        ensures going { IfOk result (λ next. IfSome next (λ said. Continues said →
            self.new.stop ≡ None)) }

        ensures failed { OnErr result (HaveRisen (S.faults source.old) (S.faults source.new)) }
        ensures kept { OnErr result (
            Keeps (unread self.old (S.left source.old)) (unread self.new (S.left source.new))) }
        ensures still { OnErr result (place_of self.new ≡ place_of self.old) }
        ensures waiting { OnErr result (Waits self.new) }

        ensures sparing { IfSome (S.left source.old) (λ bytes.
            TakesAsNeeded (place_of self.old) (kept_of self.old) (has_ended self.old) bytes
            (S.left source.new)) }

        ensures end { TellsEnd self.old (S.left source.old) →
            TellsEnd self.new (S.left source.new) }
        ensures ended { has_ended self.old ≡ true → has_ended self.new ≡ true }
        ensures limit { limit_of self.new ≡ limit_of self.old }
        ensures steady { IsSome (mode_of self.old) → mode_of self.new ≡ mode_of self.old }
        ensures counted { S.faults source.old ≤ S.faults source.new }
    {
        match gather(&mut self.buffer, &mut self.ended, source) {
            Ok(end) => Ok(self.cut(end)),
            Err(Failed) => Err(Failed),
        }
    }

    /// Reads the first line of the buffer, which ends at `end`, or with the bytes. Returns `None`
    /// at the end of the input.
    fn cut(&mut self, end: Option<usize>) -> Option<Said>
        requires there { EndsAt self.old.buffer self.old.ended end }
        requires going { self.old.stop ≡ None }

        ensures line { IfSome result (λ said. Continues said → (left : _) →
            IfSome (unread self.old left) (λ bytes.
            TakesLine (place_of self.old) said bytes self.new.ended (unread self.new left))) }
        ensures first { IfSome result (λ said. (left : _) →
            IfSome (unread self.old left) (λ bytes. MeetsLine (place_of self.old) said bytes)) }
        ensures place { IfSome result (λ said. Continues said →
            place_of self.new ≡ following (place_of self.old) said) }

        ensures none { IfNone result (IsDone self.old) }
        ensures done { IfNone result (self.new ≡ self.old) }
        ensures again { IsDone self.old → result ≡ None }

        ensures stop { (cause : _) → result ≡ Some (Said.Fails cause) → self.new.stop ≡ Some cause }
        ensures still { (cause : _) → result ≡ Some (Said.Fails cause) →
            place_of self.new ≡ place_of self.old }
        ensures kept { (cause : _) → result ≡ Some (Said.Fails cause) →
            self.new.buffer ≡ self.old.buffer }
        ensures shown { (cause : _) → result ≡ Some (Said.Fails cause) →
            ShowsBad (place_of self.old) self.old.buffer self.old.ended }
        ensures going { IfSome result (λ said. Continues said → self.new.stop ≡ None) }

        ensures ended { self.new.ended ≡ self.old.ended }
        ensures limit { self.new.limit ≡ self.old.limit }
        ensures steady { IsSome self.old.mode → self.new.mode ≡ self.old.mode }
    {
        let len = self.buffer.bytes().len();
        match end {
            Some(place) => Some(self.read(place, place + 1)),
            None => {
                if len == 0 {
                    None
                } else {
                    Some(self.read(len, len))
                }
            }
        }
    }

    /// Reads a line of `len` bytes. Unless it is bad, removes the first `taken` bytes: the line and
    /// what ends it.
    fn read(&mut self, len: usize, taken: usize) -> Said
        requires ordered { len ≤ taken }
        requires within { taken ≤ length self.old.buffer }

        ensures value { result ≡
            reading self.old.limit (self.old.count + 1) self.old.mode (take len self.old.buffer) }

        ensures rest { Continues result → self.new.buffer ≡ drop taken self.old.buffer }
        ensures place { Continues result
            → place_of self.new ≡ following (place_of self.old) result }
        ensures going { Continues result → self.new.stop ≡ self.old.stop }

        ensures stop { (cause : _) → result ≡ Said.Fails cause → self.new.stop ≡ Some cause }
        ensures still { (cause : _) → result ≡ Said.Fails cause →
            (place_of self.new ≡ place_of self.old) × (self.new.buffer ≡ self.old.buffer) }

        ensures ended { self.new.ended ≡ self.old.ended }
        ensures limit { self.new.limit ≡ self.old.limit }
        ensures steady { IsSome self.old.mode → self.new.mode ≡ self.old.mode }
    {
        let number = self.count + 1;
        let said = read_line(self.limit, number, self.mode, &self.buffer.bytes()[..len]);
        match said {
            Said::Fails(cause) => {
                self.stop = Some(cause);
            }
            _ => {
                self.buffer.skip(taken);
                self.mode = mode_after(self.mode, &said);
                self.count = number;
            }
        }
        said
    }
}

/// Fills the buffer until the end of its first line is known, and returns where that is.
fn gather<S: Source>(
    buffer: &mut Buffer,
    ended: &mut bool,
    source: &mut S,
) -> Result<Option<usize>, Failed>
    ensures ends { IfOk result (λ end. EndsAt buffer.new ended.new end) }
    ensures kept { Keeps (unread_of buffer.old ended.old (S.left source.old))
        (unread_of buffer.new ended.new (S.left source.new)) }

    ensures failed { OnErr result (HaveRisen (S.faults source.old) (S.faults source.new)) }
    ensures counted { S.faults source.old ≤ S.faults source.new }
    ensures waiting { OnErr result (IsUnbroken buffer.new × (ended.new ≡ false)) }
    ensures end { TellsEndOf ended.old (S.left source.old) →
        TellsEndOf ended.new (S.left source.new) }
    ensures sparing { IfSome (S.left source.old)
        (λ bytes. RefillsOnly buffer.old ended.old bytes (S.left source.new)) }
    ensures again { ended.old ≡ true →
        IsOk result × (source.new ≡ source.old) × (buffer.new ≡ buffer.old) × (ended.new ≡ true) }
{
    loop {
        let bytes = buffer.bytes();
        let found = memchr(b'\n', bytes);
        if found.is_some() || *ended || bytes.len() > UNDECIDED {
            return Ok(found);
        }
        if buffer.fill(source)? == 0 {
            *ended = true;
        }
    }
}
