//! A row is what a client sends, ` => `, and what comes of it: how its connection ends, its notes, and behind a line end what is written.
//! In both `~` is CR LF, `^` is LF, `` ` `` is CR, `§` is the page `HTML`, `¶` is `PLAIN`, and `{N PIECE}` stands for N times the piece.

use super::serving::Wire;

/// The program of the world of each row.
pub(super) const PROGRAM: &str = "task main() : int = enter int >>? x . edit (x + 1)";

/// The page of its opening in HTML.
pub(super) const HTML: &str = r#"<!DOCTYPE html>
<html lang="en"><head><meta charset="utf-8"><title>tophat</title></head><body>
<p>version 0 seat 1</p>
<p>. step</p>
<p>. enter int</p>
<form method="post" action="/"><input type="hidden" name="path" value="."><input type="hidden" name="act" value="set"><input type="hidden" name="as" value="int"><input name="value" value=""><button>set</button></form>
</body></html>
"#;

/// The line that tells plain text, and the next one up to the length.
pub(super) const PLAIN: &str = "Content-Type: text/plain; charset=utf-8\r\nContent-Length: ";

/// Connections that the client ends: an input with the page behind it, a page that isn't there yet, an input that isn't offered, a
/// part of a request, requests that are refused, and line ends.
pub(super) const GOING_ON: &str =
    r#"POST / HTTP/1.1~Host: a~Content-Length: 29~~path=.&act=set&as=int&value=4GET /?v=1&face=text HTTP/1.1~Host: a~~ => Ended Taken 1 Page 1^HTTP/1.1 303 See Other~Location: /?v=1~Content-Length: 0~~HTTP/1.1 200 OK~¶42~~version 1 seat 1^. step next^. edit int 4^
POST / HTTP/1.1~Host: a~Content-Length: 29~~path=.&act=set&as=int&value=4GET /?v=99 HTTP/1.1~Host: a~~ => Ended Taken 1 Ahead 1^HTTP/1.1 303 See Other~Location: /?v=1~Content-Length: 0~~HTTP/1.1 409 Conflict~¶7~~have 1^
POST / HTTP/1.1~Host: a~Content-Length: 15~~path=.&act=next => Ended NotOffered 0^HTTP/1.1 409 Conflict~¶25~~not offered at version 0^
POST / HTTP/1.1~Host: a~Content-Length: 29~~path=.&act => Cut^
POST / HTTP/1.1~Host: a~~GET / HTTP/1.1~Host: a~~ => Ended Refused(411) 0 Page 0^HTTP/1.1 411 Length Required~¶16~~length required^HTTP/1.1 200 OK~Content-Type: text/html; charset=utf-8~Content-Length: 385~~§
PUT / HTTP/1.1~Host: a~Content-Length: 3~~abc => Ended Refused(405) 0^HTTP/1.1 405 Method Not Allowed~Allow: GET, HEAD, POST~¶19~~method not allowed^
GET /x HTTP/1.1~Host: a~~ => Ended Refused(404) 0^HTTP/1.1 404 Not Found~¶10~~not found^
GET /?v=18446744073709551616 HTTP/1.1~Host: a~~ => Ended Refused(400) 0^HTTP/1.1 400 Bad Request~¶12~~bad request^
POST / HTTP/1.1~Host: a~Content-Length: 16~~path=.X&act=next => Ended Refused(400) 0^HTTP/1.1 400 Bad Request~¶12~~bad request^
POST / HTTP/1.1~Host: a~Content-Length: 30~~path=.&act=set&as=int&value=4x => Ended Refused(400) 0^HTTP/1.1 400 Bad Request~¶17~~bad literal at 1^
~^~ => Ended^
^` => Cut^
{8191 x} => Cut^"#;

/// Connections that a request ends: one that is refused, one that asks for it, and the hundredth.
pub(super) const CLOSING: &str =
    r#"POST / HTTP/1.1~Host: a~Content-Length: 65537~~GET / HTTP/1.1~Host: a~~ => Refused(413) Refused(413) 0^HTTP/1.1 413 Content Too Large~¶15~Connection: close~~body too large^
{8192 x}GET / HTTP/1.1~Host: a~~ => Refused(431) Refused(431) 0^HTTP/1.1 431 Request Header Fields Too Large~¶15~Connection: close~~head too large^
GET / HTTP/1.1~{64 a: b~}Host: a~~ => Refused(431) Refused(431) 0^HTTP/1.1 431 Request Header Fields Too Large~¶15~Connection: close~~head too large^
hello^^GET / HTTP/1.1~Host: a~~ => Refused(400) Refused(400) 0^HTTP/1.1 400 Bad Request~¶12~Connection: close~~bad request^
GET  / HTTP/1.1~Host: a~~ => Refused(400) Refused(400) 0^HTTP/1.1 400 Bad Request~¶12~Connection: close~~bad request^
GET / HTTP/1.1~~ => Refused(400) Refused(400) 0^HTTP/1.1 400 Bad Request~¶12~Connection: close~~bad request^
GET / HTTP/1.1~Host: a~hOST: a~~ => Refused(400) Refused(400) 0^HTTP/1.1 400 Bad Request~¶12~Connection: close~~bad request^
GET / HTTP/1.1~Host: a~Transfer-Encoding: chunked~~ => Refused(501) Refused(501) 0^HTTP/1.1 501 Not Implemented~¶16~Connection: close~~not implemented^
POST / HTTP/1.1~Host: a~Content-Length: 3~Content-Length: 3~~abc => Refused(400) Refused(400) 0^HTTP/1.1 400 Bad Request~¶12~Connection: close~~bad request^
POST / HTTP/1.1~Host: a~Content-Length: +5~~abcde => Refused(400) Refused(400) 0^HTTP/1.1 400 Bad Request~¶12~Connection: close~~bad request^
POST / HTTP/1.1~Host: a~Content-Length: 00000000000000000005~~abcde => Refused(400) Refused(400) 0^HTTP/1.1 400 Bad Request~¶12~Connection: close~~bad request^
POST / HTTP/1.1~Host: a~Content-Length: 9999999999999999999~~ => Refused(413) Refused(413) 0^HTTP/1.1 413 Content Too Large~¶15~Connection: close~~body too large^
HEAD / HTTP/1.0~~GET / HTTP/1.0~~ => Parted Page 0^HTTP/1.1 200 OK~Content-Type: text/html; charset=utf-8~Content-Length: 385~Connection: close~~
GET /?face=text HTTP/1.1~Host: a~Content-Length: 5~Connection: Close~~GET / => Parted Page 0^HTTP/1.1 200 OK~¶36~Connection: close~~version 0 seat 1^. step^. enter int^
GET /x HTTP/1.1~Host: a~Connection: close~~ => Parted Refused(404) 0^HTTP/1.1 404 Not Found~¶10~Connection: close~~not found^
{101 GET / HTTP/1.1~Host: a~~} => Spent{100  Page 0}^{99 HTTP/1.1 200 OK~Content-Type: text/html; charset=utf-8~Content-Length: 385~~§}HTTP/1.1 200 OK~Content-Type: text/html; charset=utf-8~Content-Length: 385~Connection: close~~§"#;

/// An input and the page behind it, where a write fails, and where a read does.
pub(super) const FAILING: &[(&str, Wire)] = &[
    (
        "POST / HTTP/1.1~Host: a~Content-Length: 29~~path=.&act=set&as=int&value=4GET /?v=1&face=text HTTP/1.1~Host: a~~ => WriteFault Taken 1^HTTP/",
        Wire {
            gives: 100_000,
            takes: 5,
            failing_read: 0,
            failing_write: 2,
        },
    ),
    (
        "POST / HTTP/1.1~Host: a~Content-Length: 29~~path=.&act=set&as=int&value=4GET /?v=1&face=text HTTP/1.1~Host: a~~ => ReadFault^",
        Wire {
            gives: 20,
            takes: 5,
            failing_read: 2,
            failing_write: 0,
        },
    ),
];
