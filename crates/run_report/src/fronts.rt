// What the lines of ten events begin with.
ghost use Rattle.std.specs.Prelude.{◌≡◌, ◌<◌, ◌+◌, ◌/◌, ◌^◌, take};
ghost use Rattle.run_report.specs.ReportText.{event_front};

use itoa::Buffer;

// `event` and a space, with room for a number behind it.
const EVENT: [u8; 32] = *b"event 00000000000000000000000000";

// What the lines of ten events begin with, whose numbers differ in the last digit: the first `len` bytes.
#[derive(Drop)]
pub(crate) struct EventFront {
    pub(crate) bytes: [u8; 32],
    pub(crate) len: u8,
}

impl EventFront {
    // The front where numbers have this number of tens. Where there are none, no digit stands before the last one.
    pub(crate) fn of(tens: usize) -> EventFront
        ensures { take result.len result.bytes ≡ event_front tens }
    {
        if tens == 0 {
            return EventFront {
                bytes: EVENT,
                len: 6,
            };
        }
        let mut bytes = EVENT;
        let mut buffer = Buffer::new();
        let digits = buffer.format(tens).as_bytes();
        let len = 6 + digits.len();
        bytes[6..len].copy_from_slice(digits);
        EventFront {
            bytes,
            len: len as u8,
        }
    }

    // From the front of the line of a number to that of the next.
    pub(crate) fn advance(&mut self, number: usize)
        requires small { number + 1 < 2 ^ 64 }
        requires front { take self.old.len self.old.bytes ≡ event_front (number / 10) }
        ensures { take self.new.len self.new.bytes ≡ event_front ((number + 1) / 10) }
    {
        let next = number + 1;
        if next % 10 == 0 {
            *self = EventFront::of(next / 10);
        }
    }
}
