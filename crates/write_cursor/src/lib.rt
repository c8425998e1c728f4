// Document 01, "Writing": "The writer is a record of the output and the next free byte." Each of its methods calls the function of
// `write_parts` that writes at a place. `write_text` takes plain slices.
#![tactic(auto)]

ghost use Rattle.std.specs.Prelude.{◌≡◌, true, ◌++◌, ◌+◌, ◌≤◌, length};
ghost use Rattle.format.specs.Bytes.{crlf_text, pasted, texts};
ghost use Rattle.format.specs.Characters.{replaced};
ghost use Rattle.format.specs.Writing.{first_line, header_line, type_line, content_line, ended, write};
ghost use Rattle.characters.specs.Lengths.{utf8_end};
ghost use Rattle.store_entries.specs.Stored.{shaped_all};
ghost use Rattle.store_entry_check.specs.EntriesHold.{headers_hold};
ghost use Rattle.store_entry_check.specs.FromBytes.{entries_from, headers_from};
ghost use Rattle.write_cursor.specs.StoredMessage.{message_of};
ghost use Rattle.write_cursor.specs.Wrote.{wrote};

#[derive(Drop)]
pub struct Writer<'a> {
    pub out: &'a mut [u8],
    pub at: usize,
}

impl<'a> Writer<'a> {
    // The borrow of the output goes into the writer, and the next free byte is the first.
    pub fn new(out: &'a mut [u8]) -> Writer<'a>
        ensures { (result.out ≡ out.entry) × (result.at ≡ 0) }
    {
        Writer { out, at: 0 }
    }

    // The first line, and a blank one.
    pub fn put_first(&mut self)
        requires { self.old.at + length (ended first_line ++ crlf_text) ≤ length self.old.out.now }
        ensures { self.new ≡ wrote self.old (ended first_line ++ crlf_text) }
    {
        self.at = write_parts::put_first_at(self.out, self.at);
    }

    // A blank line.
    pub fn put_blank(&mut self)
        requires { self.old.at + length crlf_text ≤ length self.old.out.now }
        ensures { self.new ≡ wrote self.old crlf_text }
    {
        self.at = write_parts::put_blank_at(self.out, self.at);
    }

    // The lines of count headers.
    pub fn put_headers(&mut self, s: &[u8], count: usize)
        requires { (headers_hold count s.now ≡ true) × (self.old.at + length (texts (λ h. ended (header_line h)) (headers_from count s.now)) ≤ length self.old.out.now) }
        ensures { self.new ≡ wrote self.old (texts (λ h. ended (header_line h)) (headers_from count s.now)) }
    {
        self.at = write_parts::lines::put_header_lines(self.out, self.at, s, count);
    }

    // A blank line, the type's, and those of count content headers.
    pub fn put_content_part(&mut self, kind: &[u8], s: &[u8], count: usize)
        requires { (shaped_all count s.now ≡ true) × (self.old.at + length (crlf_text ++ (ended (type_line kind.now) ++ texts (λ e. ended (content_line e)) (entries_from count s.now))) ≤ length self.old.out.now) }
        ensures { self.new ≡ wrote self.old (crlf_text ++ (ended (type_line kind.now) ++ texts (λ e. ended (content_line e)) (entries_from count s.now))) }
    {
        self.at = write_parts::put_content_part_at(self.out, self.at, kind, s, count);
    }

    // The body, of which all up to `end` is UTF-8.
    pub fn put_body(&mut self, body: &[u8], end: usize)
        requires { (end ≡ utf8_end body.now 0) × (self.old.at + length (replaced body.now) ≤ length self.old.out.now) }
        ensures { self.new ≡ wrote self.old (replaced body.now) }
    {
        self.at = write_parts::put_body_at(self.out, self.at, body, end);
    }
}

// The text of the message that stands in these bytes, from the output's start on.
pub fn write_text(
    out: &mut [u8],
    headers: &[u8],
    many: usize,
    kind: &[u8],
    contents: &[u8],
    count: usize,
    body: &[u8],
    end: usize,
) -> usize
    requires { ((headers_hold many headers.now ≡ true) × (shaped_all count contents.now ≡ true) × (end ≡ utf8_end body.now 0)) × (length (write (message_of many headers.now kind.now count contents.now body.now)) ≤ length out.old) }
    ensures { (result ≡ length (write (message_of many headers.now kind.now count contents.now body.now))) × (out.new ≡ pasted 0 (write (message_of many headers.now kind.now count contents.now body.now)) out.old) }
{
    let mut writer = Writer::new(out);
    writer.put_first();
    writer.put_headers(headers, many);
    writer.put_content_part(kind, contents, count);
    writer.put_blank();
    writer.put_body(body, end);
    writer.at
}
