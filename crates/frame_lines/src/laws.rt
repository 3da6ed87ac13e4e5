ghost use Rattle.std.specs.Prelude.{◌≡◌, ◌↔◌, ◌+◌, ◌<◌, ◌^◌, ◌++◌, ℕ, List, [], None, Ok, codes, decimal, length};
ghost use Rattle.std.specs.List.{flat_map, AllByRecursion};
ghost use Rattle.channel_frame.specs.StreamReading.{AreBytes, frames_of};
ghost use Rattle.frame_lines.specs.TextLines.{lines_of};
ghost use Rattle.frame_lines.specs.TextReading.{frames_said, bytes_said, fault_said};
ghost use Rattle.frame_lines.specs.FrameLines.{body_words, body_cause, line_for};
ghost use Rattle.frame_lines.specs.TextTelling.{text_told, fault_told};
ghost use Rattle.frame_lines.specs.TextFaults.{faults_from, faults_of, first_fault};
ghost use Rattle.frame_lines.specs.FullLines.{full_line, reply_with, IsLine, HasToldBody, HasNoHeaders};

/// A text has no fault exactly where every line that does not pass says a frame.
pub fn faultless_where_each_line_says()
    ensures { (text : List ℕ) → ((fault_said text ≡ None) ↔ AllByRecursion IsLine (lines_of text)) }
{}

/// Of a text a fault is told exactly where `encode` ends at one, and the first is that one. Each line is judged by itself: the faults of
/// some lines and those of the lines behind them, counted on, are the faults of all.
pub fn each_fault_is_told_by_its_line()
    ensures none { (text : List ℕ) → ((faults_of text ≡ []) ↔ (fault_said text ≡ None)) }
    ensures first { (text : List ℕ) → first_fault (faults_of text) ≡ fault_said text }
    ensures alone { (a b : List (List ℕ)) (number : ℕ) → faults_from (a ++ b) number ≡ faults_from a number ++ faults_from b (number + length a) }
{}

/// Decoding what a text says gives its lines in full, where a line can tell each body: the sequence number, the type by its name, the
/// body. A body of a text has no newline, but it may end in a carriage return or be no text in UTF-8.
pub fn what_is_said_is_told_in_full()
    ensures text { (text : List ℕ) → AllByRecursion HasToldBody (frames_said text) → text_told (bytes_said text) ≡ flat_map full_line (frames_said text) }
    ensures fault { (text : List ℕ) → AllByRecursion HasToldBody (frames_said text) → fault_told (bytes_said text) ≡ None }
{}

/// Encoding what was decoded without a fault gives the bytes back, where no frame has headers.
pub fn what_is_told_is_said_again()
    ensures bytes { (bytes : List ℕ) → AreBytes bytes → fault_told bytes ≡ None → AllByRecursion HasNoHeaders (frames_of bytes) → bytes_said (text_told bytes) ≡ bytes }
    ensures fault { (bytes : List ℕ) → AreBytes bytes → fault_told bytes ≡ None → AllByRecursion HasNoHeaders (frames_of bytes) → fault_said (text_told bytes) ≡ None }
{}

/// The line of a reply, whose headers spell the request's sequence number and whether it had success, begins with these two.
pub fn replies_are_told_by_their_requests()
    ensures ok { (sequence request : ℕ) (body : List ℕ) → request < 2 ^ 32 → body_cause body ≡ None
        → line_for (reply_with sequence request 1 body) ≡ Ok (decimal request ++ (codes " ok" ++ body_words body)) }
    ensures refused { (sequence request : ℕ) (body : List ℕ) → request < 2 ^ 32 → body_cause body ≡ None
        → line_for (reply_with sequence request 0 body) ≡ Ok (decimal request ++ (codes " refused" ++ body_words body)) }
{}
