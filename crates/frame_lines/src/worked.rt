ghost use Rattle.std.specs.Prelude.{◌≡◌, true, false, [], ◌∷◌, ◌++◌, codes, None, Some, Ok, Err};
ghost use Rattle.channel_frame.specs.declared.frames.FrameFault.TheVariants.{BadMarker, BadHeaders};
ghost use Rattle.channel_frame.specs.WorkedFrames.{ann_frame, ann_bytes, reply_frame, reply_bytes, unmarked_bytes, cut_bytes, short_header};
ghost use Rattle.frame_lines.specs.declared.lines.LineCause.TheVariants.{BadSequence, UnknownType};
ghost use Rattle.frame_lines.specs.declared.told.TellCause.TheVariants as tell;
ghost use Rattle.frame_lines.specs.declared.told.DecodeCause.TheVariants.{Untold, Bad, Unfinished};
ghost use Rattle.frame_lines.specs.TypeNames.{number_named, name_numbered};
ghost use Rattle.frame_lines.specs.TextLines.{lines_of, passes};
ghost use Rattle.frame_lines.specs.LineReading.{said_by};
ghost use Rattle.frame_lines.specs.TextReading.{frames_said, bytes_said, fault_said};
ghost use Rattle.frame_lines.specs.FrameLines.{line_for};
ghost use Rattle.frame_lines.specs.TextTelling.{text_told, fault_told};
ghost use Rattle.frame_lines.specs.FaultTexts.{line_text, frame_text};
ghost use Rattle.frame_lines.specs.NearNames.{near_name};
ghost use Rattle.frame_lines.specs.TextFaults.{faults_of, first_fault, faults_told};
ghost use Rattle.frame_lines.specs.WorkedLines.{ann_line, nine_lines, four_frames, four_lines, refusal_frame, longer_reply, ann_piece, ann_with, seven_lines, seven_told};

/// Names of content types and their numbers.
pub fn worked_types()
    ensures hello { number_named (codes "Hello") ≡ Some 0 }
    ensures identity { number_named (codes "CreateIdentity") ≡ Some 1000 }
    ensures compact { number_named (codes "Compact") ≡ Some 1510 }
    ensures other_case { number_named (codes "hello") ≡ None }
    ensures front { number_named (codes "Create") ≡ None }
    ensures nothing { number_named [] ≡ None }
    ensures back { name_numbered 1402 ≡ Some (codes "Explain") }
    ensures result_has_no_name { name_numbered 2 ≡ None }
{}

/// Lines of a text, and those that pass.
pub fn worked_cuts()
    ensures cut { lines_of (codes "a\r\n\nb \n") ≡ codes "a" ∷ [] ∷ codes "b " ∷ [] }
    ensures last { lines_of (codes "a\nb\r") ≡ codes "a" ∷ codes "b\r" ∷ [] }
    ensures returns { lines_of (codes "\r\r\n") ≡ codes "\r" ∷ [] }
    ensures none { lines_of [] ≡ [] }
    ensures spaces { passes (codes "   ") ≡ true }
    ensures remark { passes (codes "  # Hello") ≡ true }
    ensures behind { passes (codes "Hello # x") ≡ false }
    ensures tab { passes (codes "\t") ≡ false }
{}

/// What a line says, and why some say no frame.
pub fn worked_lines()
    ensures named { said_by ann_line ≡ Ok (record { sequence = Some 7; content = 1000; body = codes "{\"name\":\"ann\"}" }) }
    ensures numbered { said_by (codes "7 1000 {}") ≡ Ok (record { sequence = Some 7; content = 1000; body = codes "{}" }) }
    ensures alone { said_by (codes "Hello") ≡ Ok (record { sequence = None; content = 0; body = [] }) }
    ensures space { said_by (codes "Hello ") ≡ Ok (record { sequence = None; content = 0; body = [] }) }
    ensures verbatim { said_by (codes "Hello  x ") ≡ Ok (record { sequence = None; content = 0; body = codes " x " }) }
    ensures last_type { said_by (codes "0 4294967295") ≡ Ok (record { sequence = Some 0; content = 4294967295; body = [] }) }
    ensures zeros { said_by (codes "07 Hello") ≡ Err BadSequence }
    ensures too_large { said_by (codes "4294967296 Hello") ≡ Err BadSequence }
    ensures number_first { said_by (codes "1000 {}") ≡ Err UnknownType }
    ensures sequence_alone { said_by (codes "7") ≡ Err UnknownType }
    ensures space_first { said_by (codes " Hello") ≡ Err UnknownType }
    ensures two_spaces { said_by (codes "7  Hello") ≡ Err UnknownType }
    ensures zeros_in_type { said_by (codes "7 01000") ≡ Err UnknownType }
    ensures name_in_part { said_by (codes "7 Hello{}") ≡ Err UnknownType }
{}

/// A text of nine lines, read up to its fault.
pub fn worked_text()
    ensures frames { frames_said nine_lines ≡ four_frames }
    ensures fault { fault_said nine_lines ≡ Some (record { line = 8; cause = UnknownType }) }
    ensures ann { bytes_said ann_line ≡ ann_bytes }
    ensures no_fault { fault_said ann_line ≡ None }
    ensures words { line_text (record { line = 8; cause = UnknownType }) ≡ codes "line 8: unknown type" }
{}

/// Known names near to words, and the faults of texts.
pub fn worked_checks()
    ensures left_out { near_name (codes "Helo") ≡ Some (codes "Hello") }
    ensures besides { near_name (codes "CreateRouterr") ≡ Some (codes "CreateRouter") }
    ensures another { near_name (codes "ShowCount5") ≡ Some (codes "ShowCounts") }
    ensures other_case { near_name (codes "hello") ≡ Some (codes "Hello") }
    ensures two_bytes { near_name (codes "CraeteRouter") ≡ None }
    ensures nothing { near_name [] ≡ None }
    ensures told { faults_told seven_lines ≡ seven_told }
    ensures first { first_fault (faults_of seven_lines) ≡ Some (record { line = 2; cause = UnknownType }) }
    ensures faultless { faults_of ann_line ≡ [] }
{}

/// The lines of frames, and why some have none.
pub fn worked_tellings()
    ensures ann { line_for ann_frame ≡ Ok ann_line }
    ensures reply { line_for reply_frame ≡ Ok (codes "7 ok {\"no\":1}") }
    ensures refusal { line_for refusal_frame ≡ Ok (codes "7 refused") }
    ensures no_reply { line_for (record ann_frame { content = 2 }) ≡ Ok (codes "7 2 {\"name\":\"ann\"}") }
    ensures piece { line_for ann_piece ≡ Ok (codes "0 whole serial=1 piece=0 count=1 bytes=43") }
    ensures next_piece { line_for (record ann_piece { content = 1901; sequence = 9 }) ≡ Ok (codes "9 next serial=1 piece=0 count=1 bytes=43") }
    ensures no_piece { line_for (record ann_piece { content = 1902 }) ≡ Err tell.Headers }
    ensures headers { line_for longer_reply ≡ Err tell.Headers }
    ensures newline { line_for (ann_with (codes "a\nb")) ≡ Err tell.Newline }
    ensures carriage_return { line_for (ann_with (codes "a\r")) ≡ Err tell.Return }
    ensures carriage_return_within { line_for (ann_with (codes "a\rb")) ≡ Ok (codes "7 CreateIdentity a\rb") }
    ensures not_text { line_for (ann_with (255 ∷ [])) ≡ Err tell.NotText }
{}

/// The lines of bytes, up to their fault.
pub fn worked_frames()
    ensures two { text_told (ann_bytes ++ reply_bytes) ≡ ann_line ++ codes "\n7 ok {\"no\":1}\n" }
    ensures two_fault { fault_told (ann_bytes ++ reply_bytes) ≡ None }
    ensures back { text_told (bytes_said nine_lines) ≡ four_lines }
    ensures marker { text_told (ann_bytes ++ unmarked_bytes) ≡ ann_line ++ codes "\n" }
    ensures marker_fault { fault_told (ann_bytes ++ unmarked_bytes) ≡ Some (record { frame = 2; cause = Bad BadMarker 34 }) }
    ensures cut_fault { fault_told (ann_bytes ++ cut_bytes) ≡ Some (record { frame = 2; cause = Unfinished 34 }) }
    ensures headers_fault { fault_told short_header ≡ Some (record { frame = 1; cause = Bad BadHeaders 0 }) }
    ensures words { frame_text (record { frame = 2; cause = Bad BadMarker 34 }) ≡ codes "frame 2: BadMarker at 34" }
    ensures more_words { frame_text (record { frame = 1; cause = Untold tell.Newline }) ≡ codes "frame 1: newline in the body" }
{}
