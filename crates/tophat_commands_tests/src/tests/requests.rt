//! Requests, and the replies to them.

pub(super) const SET: &str =
    "POST / HTTP/1.1\r\nHost: a\r\nContent-Length: 29\r\n\r\npath=.&act=set&as=int&value=4";

pub(super) const NEXT: &str =
    "POST / HTTP/1.1\r\nHost: a\r\nContent-Length: 15\r\n\r\npath=.&act=next";

pub(super) const AHEAD: &str = "GET /?v=99 HTTP/1.1\r\nHost: a\r\n\r\n";

pub(super) const SET_AND_PAGE: &str =
    "POST / HTTP/1.1\r\nHost: a\r\nContent-Length: 29\r\n\r\npath=.&act=set&as=int&value=4\
    GET /?v=1&face=text HTTP/1.1\r\nHost: a\r\n\r\n";
