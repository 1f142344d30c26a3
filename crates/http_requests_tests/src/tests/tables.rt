//! A row is bytes, ` => `, and what the first request of them asks for: a page with its face and its least version, an input, or a refusal
//! with its status and its text; then `ends` where the connection ends with the refusal, `head` where the reply is a head alone, and
//! `closes` where the request asks for the end. `|` stands behind the last byte of the request where others follow it; without one it
//! takes all bytes. In the bytes `~` is CR LF, `^` is LF, `` ` `` is CR, `!` is a byte FF, and `{N PIECE}` stands for N times the piece.

/// Requests that are answered, or for an input, and bytes that hold no whole request.
pub(super) const ASKED: &str = r#"GET / HTTP/1.1~Host: a~~ => page html any
GET /? HTTP/1.1~Host: a~~|GET / HTTP/1.1~Host: a~~ => page html any
^~^GET / HTTP/1.1^HOST:  a^^|x => page html any
GET /?v=1&face=text HTTP/1.1~Host: a~~ => page text 1
GET /?face=html&face=text&v=0&v=x HTTP/1.1~Host: a~~ => page html 0
GET /?%76=7&other=1&f%61ce=text HTTP/1.1~Host: a~~ => page text 7
GET /?v=18446744073709551615 HTTP/1.1~Host: a~~ => page html 18446744073709551615
GET /?v=00000000000000000002 HTTP/1.1~Host: a~~ => page html 2
GET / HTTP/1.1~Host: a~Content-Length: 3~~abc|GET / HTTP/1.1~Host: a~~ => page html any
GET / HTTP/1.1~Host: a~cOnTeNt-lEnGtH:  03 ~~abc|d => page html any
HEAD / HTTP/1.1~Host: a~Content-Length: 3~~abc|d => page html any head
HEAD / HTTP/1.0~~|x => page html any head closes
GET / HTTP/1.0~Host: a~Host: b~~|x => page html any closes
GET / HTTP/1.1~Host: a~Connection: keep-alive~connection: x, cLoSe ~~ => page html any closes
GET / HTTP/1.1~Host: a~Connection: closed, clos e~X-Connection: close~~ => page html any
POST /?face=xml HTTP/1.1~Host: a~Content-Length: 15~~path=.&act=next|x => act . next
POST / HTTP/1.0~Content-Length: 0000000000000000015~~path=.&act=next|x => act . next closes
POST / HTTP/1.1~Host: a~Content-Length: 29~~path=.&act => more
GET / HTTP/1.1~Host: a~ => more
~^~ => nothing
 => nothing
^x => more
^` => more"#;

/// Requests that a check refuses, in the order of the checks from the second one on, and some that fail several.
pub(super) const CHECKS: &str = r#"GET  / HTTP/1.1~Host: a~~ => refused 400 bad request ends
HEAD / HTTP/1.2~Host: a~~ => refused 400 bad request ends
GET / HTTP/1.1~Host : a~~ => refused 400 bad request ends
GET / HTTP/1.1~Host: a~ b~~ => refused 400 bad request ends
hello^^|GET / HTTP/1.1~Host: a~~ => refused 400 bad request ends
GET / HTTP/1.1~~|GET / HTTP/1.1~~ => refused 400 bad request ends
GET / HTTP/1.1~Host: a~Host: a~~ => refused 400 bad request ends
HEAD / HTTP/1.1~Host: a~hOST: a~Connection: close~~|x => refused 400 bad request ends head
GET / HTTP/1.1~Transfer-Encoding: chunked~~ => refused 400 bad request ends
GET / HTTP/1.1~Host: a~Transfer-Encoding: chunked~~ => refused 501 not implemented ends
POST / HTTP/1.1~Host: a~transfer-encoding: chunked~Content-Length: x~~|abc => refused 501 not implemented ends
POST / HTTP/1.1~Host: a~Content-Length: 3~Content-Length: 3~~|abc => refused 400 bad request ends
POST / HTTP/1.1~Host: a~Content-Length: 3~content-length: 65537~~|abc => refused 400 bad request ends
POST / HTTP/1.1~Host: a~Content-Length: +5~~|abcde => refused 400 bad request ends
POST / HTTP/1.1~Host: a~Content-Length: 5 5~~|abcde => refused 400 bad request ends
HEAD / HTTP/1.1~Host: a~Content-Length:~~ => refused 400 bad request ends head
POST / HTTP/1.1~Host: a~Content-Length: 00000000000000000005~~|abcde => refused 400 bad request ends
POST / HTTP/1.1~Host: a~Content-Length: 99999999999999999999~~ => refused 400 bad request ends
POST / HTTP/1.1~Host: a~Content-Length: 9999999999999999999~~ => refused 413 body too large ends
POST /x HTTP/1.0~Content-Length: 65537~~|abc => refused 413 body too large ends
GET /x HTTP/1.1~Host: a~~ => refused 404 not found
GET // HTTP/1.1~Host: a~~ => refused 404 not found
GET http://a/ HTTP/1.1~Host: a~~ => refused 404 not found
OPTIONS * HTTP/1.1~Host: a~~ => refused 404 not found
POST /x HTTP/1.1~Host: a~~|path=.&act=next => refused 404 not found
HEAD /x?v=1 HTTP/1.1~host:a~Connection: keep-alive, CLOSE ~Content-Length: 2~~ab|c => refused 404 not found head closes
PUT / HTTP/1.1~Host: a~Content-Length: 3~~abc|d => refused 405 method not allowed
get /?face=xml HTTP/1.1~Host: a~~ => refused 405 method not allowed
POST / HTTP/1.1~Host: a~~|path=.&act=next => refused 411 length required
GET /?v=18446744073709551616 HTTP/1.1~Host: a~~ => refused 400 bad request
GET /?v=000000000000000000002 HTTP/1.1~Host: a~~ => refused 400 bad request
GET /?v=%2B5 HTTP/1.1~Host: a~~ => refused 400 bad request
GET /?v HTTP/1.1~Host: a~~ => refused 400 bad request
GET /?face=HTML HTTP/1.1~Host: a~~ => refused 400 bad request
HEAD /?face=xml HTTP/1.0~Content-Length: 2~~ab|c => refused 400 bad request head closes"#;

/// Requests at a limit, or beyond it.
pub(super) const LIMITS: &str = r#"GET /{8187 a} => refused 431 head too large ends
GET /{8186 a} => more
GET /{8165 a} HTTP/1.1~Host: a~~|x => refused 404 not found
HEAD /{8165 a} HTTP/1.1~Host: a~`|^ => refused 431 head too large ends
~GET /{8163 a} HTTP/1.1~Host: a~~|x => refused 404 not found
~GET /{8164 a} HTTP/1.1~Host: a~`|^ => refused 431 head too large ends
{4096 ~} => refused 431 head too large ends
{4095 ~}^ => nothing
GET / HTTP/1.1~Host: a~{63 A: b~}~|x => page html any
HEAD / HTTP/1.1~Host: a~{64 A: b~}~|x => refused 431 head too large ends
POST / HTTP/1.1~Host: a~Content-Length: 65536~~ => more
POST / HTTP/1.1~Host: a~Content-Length: 65537~~ => refused 413 body too large ends"#;

/// Forms, and what their requests ask for.
pub(super) const FORMS: &str = r#"path=.&act=set&as=int&value=4 => act . set 4
value=4&as=int&act=set&path=.FS => act .FS set 4
path=.&act=next => act . next
path=.&path=.F&act=next&act=left => act . next
path=%2E&act=left&as=int&value=x => act . left
p%61th=.S&act=right => act .S right
path=.&act=set&as=raw&value=a+b%26%3C => act . set "a b&<"
path=.&act=set&as=raw&value => act . set ""
path=.&act=set&as=(int,+[text])&value=(1,%5B%22a%22]) => act . set (1, ["a"])
path=.&act=set&as=text&value=%22%FF%22 => act . set "�"
path=.&act=set&as=int&value=4x => refused 400 bad literal at 1
path=.&act=set&as=int&value=9223372036854775808 => refused 400 bad literal at 18
path=.&act=set&as=text&value=%22%FF => refused 400 bad literal at 4
path=.X&act=next => refused 400 bad request
path=.X&act=set&as=int&value=4x => refused 400 bad request
path=.&act=set&as=inte&value=4x => refused 400 bad request
path=.&act=sat&as=int&value=4x => refused 400 bad request
path=.&act=set&as=int => refused 400 bad request
path=.&act=set&value=4 => refused 400 bad request
path=.&act=Next => refused 400 bad request
path=.&as=int&value=4 => refused 400 bad request
act=next => refused 400 bad request
path=&act=next => refused 400 bad request
 => refused 400 bad request"#;

/// Forms at a limit, or beyond it.
pub(super) const LONG_FORMS: &str = r#"path=.{65521 F}&act=next => act .{65521 F} next
path=.&act=set&as=raw&value={65508 a} => act . set "{65508 a}"
path=.&act=set&as=raw&value={21845 !} => act . set "{21845 �}"
path=.&act=set&as=raw&value={21846 !} => refused 400 bad request"#;
