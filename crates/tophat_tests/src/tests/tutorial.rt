//! The programs of the tutorial, with their runs, and those of its table of refused programs.
//! Written by docs/tutorial from docs/LANGUAGE.md.

/// Programs with their runs and commands, in blocks as `Block` (block.rt) has them.
pub(super) const TUTORIAL: &str = r#"$ run p.th
# a number to start with, and one to be filled in
task main() : (int, int) =
  edit 1 <&> enter int
= 0
> 1 show
version 0 seat 1
. and
.F edit int 1
.S enter int
> 2 .S set -4
taken 1
> 1 . set 3
not offered
> 1 show
version 1 seat 1
. and
.F edit int 1
.S edit int -4

$ run p.th
task main() : int =
  (enter int <&> enter int) >>? p . edit (fst p + snd p)
= 0
> 1 .F set 2
taken 1
> 1 . next
not offered
> 2 .S set 40
taken 2
> 1 . next
taken 3
> 1 show
version 3 seat 1
. edit int 42

$ run p.th
fun fits(n : int) : bool = 0 < n && n <= 10
task main() : int =
  enter int >>= n . if fits(n) then edit n else fail int
= 0
> 1 . set 70
taken 1
> 1 show
version 1 seat 1
. then
. edit int 70
> 1 . set 7
taken 2
> 1 show
version 2 seat 1
. edit int 7

$ run p.th
task main() : int =
  (edit "how many chairs, and the price of one" <&> (enter int <&> enter int)) >>? form .
    if fst snd form > 0 then edit (fst snd form * snd snd form) else fail int
= 0
> 1 show
version 0 seat 1
. step
. and
.F edit text "how many chairs, and the price of one"
.S and
.SF enter int
.SS enter int
> 1 .SF set 3
taken 1
> 1 .SS set 40
taken 2
> 1 show
version 2 seat 1
. step next
. and
.F edit text "how many chairs, and the price of one"
.S and
.SF edit int 3
.SS edit int 40
> 1 . next
taken 3
> 1 show
version 3 seat 1
. edit int 120

$ run p.th
task main() : text =
  (edit "left grants it, right doesn't" <&> (edit true <?> edit false)) >>? answer .
    if snd answer then edit "granted" else edit "not granted"
= 0
> 1 show
version 0 seat 1
. step
. and
.F edit text "left grants it, right doesn't"
.S pick left right
> 1 .S left
taken 1
> 2 show
version 1 seat 2
. step next
. and
.F edit text "left grants it, right doesn't"
.S edit bool true
> 2 .S set false
taken 2
> 2 . next
taken 3
> 1 show
version 3 seat 1
. edit text "not granted"

$ run p.th
task main() : text = (if 30 <= 25 then edit "granted" else fail text) <?> edit "not granted"
= 0
> 1 show
version 0 seat 1
. pick right
> 1 . left
not offered
> 1 . right
taken 1
> 1 show
version 1 seat 1
. edit text "not granted"

$ run p.th
task main() : int =
  enter int <|> (enter int >>? x . edit (x + 1))
= 0
> 1 .S set 3
taken 1
> 1 show
version 1 seat 1
. or
.F enter int
.S step next
.S edit int 3
> 1 .S next
taken 2
> 1 show
version 2 seat 1
. edit int 4

$ run p.th
task write(notes : ref [text]) : [text] =
  enter text >>? line . (notes := line :: !notes ; write(notes))
task main() : ([text], [text]) =
  new notes = nil text in write(notes) <&> share notes
= 0
> 1 .F set "milk"
taken 1
> 1 .F next
taken 2
> 2 .F set "bread"
taken 3
> 2 .F next
taken 4
> 3 show
version 4 seat 3
. and
.F step
.F enter text
.S share [text] ["bread", "milk"]
> 3 .S set ["bread", "milk", "salt"]
taken 5
> 3 show
version 5 seat 3
. and
.F step
.F enter text
.S share [text] ["bread", "milk", "salt"]

$ run p.th
task main() : text = (edit "first signature" <&> edit "second signature") >>? both . edit "signed"
= 0
> 1 show
version 0 seat 1
. step next
. and
.F edit text "first signature"
.S edit text "second signature"
> 2 show
version 0 seat 2
. step next
. and
.F edit text "first signature"
.S edit text "second signature"
> 2 .F set "Ann"
taken 1
> 2 .S set "Ben"
taken 2
> 2 . next
taken 3
> 1 show
version 3 seat 1
. edit text "signed"

$ run p.th
task main() : (((int, int), bool), (int, int)) =
  new r = 1 in
    (((enter int >>= x . edit x) <&> (enter int <|> enter int)) <&> (edit true <?> edit false))
    <&> ((share r >>? y . edit y) <&> fail int)
= 0
> 1 show
version 0 seat 1
. and
.F and
.FF and
.FFF then
.FFF enter int
.FFS or
.FFSF enter int
.FFSS enter int
.FS pick left right
.S and
.SF step next
.SF share int 1
.SS fail

$ run p.th
task view(r : ref int) : unit = edit !r >>= seen . if seen == !r then fail unit else view(r)
task label(words : text) : unit = edit words >>= seen . if seen == words then fail unit else label(words)
task take(left : ref int) : unit =
  enter int >>? days . if 0 < days && days <= !left then (left := !left - days ; take(left)) else fail unit
task main() : (unit, (unit, unit)) =
  new left = 25 in label("take days of leave") <&> (take(left) <&> view(left))
= 0
> 1 .SF set 5
taken 1
> 1 .SF next
taken 2
> 2 .SS set 1000
taken 3
> 2 .F set "take money"
taken 4
> 1 show
version 4 seat 1
. and
.F then
.F edit text "take days of leave"
.S and
.SF step
.SF enter int
.SS then
.SS edit int 20
> 2 .SF set 21
taken 5
> 2 .SF next
not offered

$ run p.th
task send(kept : ref int) : unit =
  enter int >>? bid . if bid > 0 then (kept := bid ; edit ()) else fail unit
task bids(both : (int, int)) : unit =
  edit both >>= seen . if seen == both then fail unit else bids(both)
task main() : unit =
  new a = 0 in new b = 0 in (send(a) <&> send(b)) >>= sent . bids((!a, !b))
= 0
> 1 .F set 70
taken 1
> 1 .F next
taken 2
> 2 .F set 9
not offered
> 2 show
version 2 seat 2
. then
. and
.F edit unit ()
.S step
.S enter int
> 2 .S set 60
taken 3
> 2 .S next
taken 4
> 1 . set (1, 60)
taken 5
> 2 show
version 5 seat 2
. then
. edit (int, int) (70, 60)

$ run p.th
task asked(sum : int) : bool = edit sum >>= seen . if seen == sum then fail bool else asked(sum)
task decide(sum : int) : text =
  (asked(sum) <|> ((edit true <?> edit false) >>? yes . edit yes)) >>= yes .
    if yes then edit "granted" else edit "not granted"
task main() : text = enter int >>? sum . decide(sum)
= 0
> 1 . set 40
taken 1
> 1 . next
taken 2
> 1 .F set 9000
taken 3
> 2 .S left
taken 4
> 2 show
version 4 seat 2
. then
. or
.F then
.F edit int 40
.S step next
.S edit bool true
> 2 .S next
taken 5
> 2 show
version 5 seat 2
. edit text "granted"

$ run p.th
# WRONG: a second press of the employee grants the days
task ask(left : ref int) : unit =
  enter int >>? days . if 0 < days && days <= !left then decide(left, days) else fail unit
task decide(left : ref int, days : int) : unit =
  (edit days <&> (edit true <?> edit false)) >>? d .
    if snd d then (left := !left - days ; ask(left)) else ask(left)
task main() : (unit, int) = new left = 25 in ask(left) <&> share left
= 0
> 1 .F set 10
taken 1
> 1 .F next
taken 2
> # the head looks at what granting would be, and hasn't pressed next
> 2 .FS left
taken 3
> # the employee presses next once more, on the page that still shows the form
> 1 .F next
taken 4
> 1 show
version 4 seat 1
. and
.F step
.F enter int
.S share int 15

$ run p.th
task asked(days : int) : bool = edit days >>= seen . if seen == days then fail bool else asked(days)
task ask(left : ref int) : unit =
  enter int >>? days . if 0 < days && days <= !left then decide(left, days) else fail unit
task decide(left : ref int, days : int) : unit =
  (asked(days) <|> ((edit true <?> edit false) >>? yes . edit yes)) >>= yes .
    if yes then (left := !left - days ; ask(left)) else ask(left)
task main() : (unit, int) = new left = 25 in ask(left) <&> share left
= 0
> 1 .F set 10
taken 1
> 1 .F next
taken 2
> 2 .FS left
taken 3
> 1 .F next
not offered
> 1 show
version 3 seat 1
. and
.F then
.F or
.FF then
.FF edit int 10
.FS step next
.FS edit bool true
.S share int 25

$ run p.th
task asked(number : int) : unit = edit number >>= seen . if seen == number then fail unit else asked(number)
task next_case(number : int, closed : ref [int]) : unit =
  (asked(number) <|> (enter int >>? typed . if typed == number then edit () else fail unit)) >>= u .
    (closed := number :: !closed ; next_case(number + 1, closed))
task main() : (unit, [int]) = new closed = nil int in next_case(1, closed) <&> share closed
= 0
> 1 .FS set 1
taken 1
> 1 .FS next
taken 2
> # another one closes case 1, on the page before
> 2 .FS set 1
taken 3
> 2 .FS next
not offered
> 2 show
version 3 seat 2
. and
.F then
.F or
.FF then
.FF edit int 2
.FS step
.FS edit int 1
.S share [int] [1]

$ run p.th
# WRONG: next is offered for a room that is booked
task is_booked(room : text, rest : [text]) : bool =
  case rest of [] -> edit false
  | head :: tail -> if head == room then edit true else (edit () >>= u . is_booked(room, tail))
task book(board : ref [text]) : unit =
  enter text >>? room . (is_booked(room, !board) >>= yes .
    if yes then fail unit else (board := room :: !board ; book(board)))
task main() : (unit, [text]) = new board = nil text in book(board) <&> share board
= 0
> 1 .F set "Blue"
taken 1
> 1 .F next
taken 2
> 1 .F set "Blue"
taken 3
> 1 show
version 3 seat 1
. and
.F step next
.F edit text "Blue"
.S share [text] ["Blue"]
> 1 .F next
taken 4
> 1 show
version 4 seat 1
. and
.F then
.F edit bool true
.S share [text] ["Blue"]
> 2 .F set false
taken 5
> 1 show
version 5 seat 1
. and
.F step
.F enter text
.S share [text] ["Blue", "Blue"]

$ run p.th
task is_booked(room : text, rest : [text]) : bool =
  case rest of [] -> edit false
  | head :: tail -> if head == room then edit true else (edit () >>= u . is_booked(room, tail))
task book(board : ref [text], said : text) : unit =
  (edit said <&> enter text) >>? form . (is_booked(snd form, !board) >>= yes .
    if yes then book(board, "that room is taken") else (board := snd form :: !board ; book(board, "booked")))
task view(board : ref [text]) : unit = edit !board >>= seen . if seen == !board then fail unit else view(board)
task main() : (unit, unit) = new board = nil text in book(board, "which room?") <&> view(board)
= 0
> 1 .FS set "Blue"
taken 1
> 1 .F next
taken 2
> 1 .FS set "Blue"
taken 3
> 1 .F next
taken 4
> 1 show
version 4 seat 1
. and
.F step
.F and
.FF edit text "that room is taken"
.FS enter text
.S then
.S edit [text] ["Blue"]

$ run p.th
task add(queue : ref [text]) : unit =
  enter text >>? name . if len !queue < 3 then (queue := name :: !queue ; add(queue)) else fail unit
task main() : (unit, [text]) = new queue = ["Ann", "Ben"] in add(queue) <&> share queue
= 0
> 1 .F set "Cem"
taken 1
> 1 .F next
taken 2
> 1 .F set "Dee"
taken 3
> 1 .F next
not offered
> 1 show
version 3 seat 1
. and
.F step
.F edit text "Dee"
.S share [text] ["Cem", "Ann", "Ben"]

$ run p.th
task sum(rest : [int], so_far : int) : int =
  case rest of [] -> edit so_far
  | head :: tail -> edit () >>= u . sum(tail, so_far + head)
task main() : int = sum([10, 20, 12], 0)
= 0
> 1 show
version 0 seat 1
. edit int 42

$ run p.th --budget 9
same program
= 0

$ run p.th --budget 8
same program
= 4 tophat: opening over budget

$ run p.th
fun digit(n : int) : text =
  if n < 5 then (if n == 0 then "0" else if n == 1 then "1" else if n == 2 then "2" else if n == 3 then "3" else "4")
  else if n == 5 then "5" else if n == 6 then "6" else if n == 7 then "7" else if n == 8 then "8" else "9"
fun two(n : int) : text = digit(n quot 10) ++ digit(n rem 10)
fun four(n : int) : text = two(n quot 100) ++ two(n rem 100)
task text_of(n : int, behind : text) : text =
  if n < 10 then edit (digit(n) ++ behind) else (edit () >>= u . text_of(n quot 10, digit(n rem 10) ++ behind))
task main() : (text, text) = (text_of(2047, "") >>= t . edit ("room " ++ t)) <&> edit ("room " ++ four(47))
= 0
> 1 show
version 0 seat 1
. and
.F edit text "room 2047"
.S edit text "room 0047"

$ run p.th
task count_on(n : int) : int = edit n >>= x . count_on(x + 1)
task main() : int = enter int >>? n . count_on(n)
= 0
> 1 . set 1
taken 1
> 1 show
version 1 seat 1
. step next?
. edit int 1
> 1 . next
over budget
> 1 show
version 1 seat 1
. step next?
. edit int 1

$ run p.th
# WRONG: no note can be sent
task note(log : ref [text]) : unit = enter text >>? line . (log := line :: !log ; fail unit)
task main() : (unit, [text]) = new log = nil text in note(log) <&> share log
= 0
> 1 .F set "done"
taken 1
> 1 .F next
not offered
> 1 show
version 1 seat 1
. and
.F step
.F edit text "done"
.S share [text] []

$ run p.th
# WRONG: the chair is gone once both have voted
task vote(count : ref int) : unit = edit "next votes for it" >>? v . (count := !count + 1 ; edit ())
task main() : unit =
  new count = 0 in
    ((vote(count) <&> vote(count)) >>= both . edit ()) <|> (edit "chair: next closes the vote" >>? c . edit ())
= 0
> 1 .FF next
taken 1
> 1 show
version 1 seat 1
. or
.F then
.F and
.FF edit unit ()
.FS step next
.FS edit text "next votes for it"
.S step next
.S edit text "chair: next closes the vote"
> 2 .FS next
taken 2
> 1 show
version 2 seat 1
. edit unit ()

$ run p.th
task vote(count : ref int) : unit = edit "next votes for it" >>? v . (count := !count + 1 ; vote(count))
task main() : int =
  new count = 0 in
    ((vote(count) <|> vote(count)) <|> (edit "chair: next closes the vote" >>? c . edit ())) >>= closed . edit !count
= 0
> 1 .FF next
taken 1
> 2 .FS next
taken 2
> 1 show
version 2 seat 1
. then
. or
.F or
.FF step next
.FF edit text "next votes for it"
.FS step next
.FS edit text "next votes for it"
.S step next
.S edit text "chair: next closes the vote"
> 1 .S next
taken 3
> 1 show
version 3 seat 1
. edit int 2

$ run p.th
# forms: the empty forms; places: those and the cases, at most three
task form(forms : ref int, places : ref int) : unit =
  enter text >>? what .
    if !forms == 1 && !places < 3
    then (places := !places + 1 ; opened(what, forms, places) <|> form(forms, places))
    else (forms := !forms - 1 ; opened(what, forms, places))
task opened(what : text, forms : ref int, places : ref int) : unit =
  edit what >>? done . (forms := !forms + 1 ; form(forms, places))
task main() : unit = new forms = 1 in new places = 1 in form(forms, places)
= 0
> 1 . set "a"
taken 1
> 1 . next
taken 2
> 1 .S set "b"
taken 3
> 1 .S next
taken 4
> 1 .SS set "c"
taken 5
> 1 .SS next
taken 6
> 1 show
version 6 seat 1
. or
.F step next
.F edit text "a"
.S or
.SF step next
.SF edit text "b"
.SS step next
.SS edit text "c"
> 1 .SF next
taken 7
> 1 show
version 7 seat 1
. or
.F step next
.F edit text "a"
.S or
.SF step
.SF enter text
.SS step next
.SS edit text "c"

$ run p.th
task main() : int =
  (((enter int >>? x . edit (x * 2)) <&> enter text) >>? p . if snd p == "yes" then edit (fst p) else fail int)
= 0
> # a step has the path of what it goes on from: no such path, and then the right one
> 1 .FF set 4
not offered
> 1 .F set 4
taken 1
> 1 .S set "no"
taken 2
> # the step inside hasn't gone on, so the pair has no value
> 1 . next
not offered
> 1 .F next
taken 3
> # the pair has a value, and the task behind fails
> 1 . next
not offered
> # 3 is no text
> 1 .S set 3
not offered
> 1 .S set "yes"
taken 4
> 1 show
version 4 seat 1
. step next
. and
.F edit int 8
.S edit text "yes"
> 1 . next
taken 5
> 1 show
version 5 seat 1
. edit int 8

$ check p.th
task main() : int = edit (1 + true)
= 1 tophat: p.th: byte 30: Mismatch want int got bool

$ run p.th
task main() : (int, int) = enter int >>? x . edit x <&> enter int
= 0
> 1 show
version 0 seat 1
. step
. enter int
> 1 . set 4
taken 1
> 1 . next
taken 2
> 1 show
version 2 seat 1
. and
.F edit int 4
.S enter int

$ run p.th
task main() : int = enter int >>? x . edit (x + 1)
= 3 tophat: line 4 column 10
> # the first of the month
> 1 . set 4
taken 1
> 1 . next
taken 2
> 1 . set 4x
"#;

/// Programs that are refused, and what is to be written in their place, in such blocks.
pub(super) const REFUSED: &str = r#"$ check p.th
fun f(n : int) : int = n
task t() : int = edit 1
task main() : text = edit "a" ++ "b"
= 1 tophat: p.th: byte 79: Unexpected token 29

$ run p.th
fun f(n : int) : int = n
task t() : int = edit 1
task main() : text = edit ("a" ++ "b")
= 0

$ check p.th
fun f(n : int) : int = n
task t() : int = edit 1
task main() : int = edit -1
= 1 tophat: p.th: byte 74: Unexpected token 28

$ run p.th
fun f(n : int) : int = n
task t() : int = edit 1
task main() : int = edit (-1)
= 0

$ check p.th
fun f(n : int) : int = n
task t() : int = edit 1
task main() : int = edit (5 / 2)
= 1 tophat: p.th: byte 77: BadChar

$ run p.th
fun f(n : int) : int = n
task t() : int = edit 1
task main() : int = edit (5 quot 2)
= 0

$ check p.th
fun f(n : int) : int = n
task t() : int = edit 1
task main() : bool = edit (1 = 1)
= 1 tophat: p.th: byte 78: Unexpected token 30

$ run p.th
fun f(n : int) : int = n
task t() : int = edit 1
task main() : bool = edit (1 == 1)
= 0

$ check p.th
fun f(n : int) : int = n
task t() : int = edit 1
task main() : bool = edit (0 < 1 < 2)
= 1 tophat: p.th: byte 82: Unexpected token 32

$ run p.th
fun f(n : int) : int = n
task t() : int = edit 1
task main() : bool = edit (0 < 1 && 1 < 2)
= 0

$ check p.th
fun f(n : int) : int = n
task t() : int = edit 1
task main() : [int] = edit []
= 1 tophat: p.th: byte 77: Unexpected token 31

$ run p.th
fun f(n : int) : int = n
task t() : int = edit 1
task main() : [int] = edit nil int
= 0

$ check p.th
fun f(n : int) : int = n
task t() : int = edit 1
task main() : (int, (int, int)) = edit (1, 2, 3)
= 1 tophat: p.th: byte 93: Unexpected token 40

$ run p.th
fun f(n : int) : int = n
task t() : int = edit 1
task main() : (int, (int, int)) = edit (1, (2, 3))
= 0

$ check p.th
fun f(n : int) : int = n
task t() : int = edit 1
task main() : text = edit ("a" + "b")
= 1 tophat: p.th: byte 76: Mismatch want int got text

$ run p.th
fun f(n : int) : int = n
task t() : int = edit 1
task main() : text = edit ("a" ++ "b")
= 0

$ check p.th
fun f(n : int) : int = n
task t() : int = edit 1
task main() : bool = edit ("a" < "b")
= 1 tophat: p.th: byte 76: Mismatch want int got text

$ check p.th
fun f(n : int) : int = n
task t() : int = edit 1
task main() : [int] = edit ([1] ++ [2])
= 1 tophat: p.th: byte 77: Mismatch want text got [int]

$ run p.th
fun f(n : int) : int = n
task t() : int = edit 1
task main() : [int] = edit (1 :: [2])
= 0

$ check p.th
fun f(n : int) : int = n
task t() : int = edit 1
task main() : text = edit 'a'
= 1 tophat: p.th: byte 75: BadChar

$ run p.th
fun f(n : int) : int = n
task t() : int = edit 1
task main() : text = edit "a"
= 0

$ check p.th
fun f(n : int) : int = n
task t() : int = edit 1
task main() : int = edit f
= 1 tophat: p.th: byte 74: UnknownName

$ run p.th
fun f(n : int) : int = n
task t() : int = edit 1
task main() : int = edit f(1)
= 0

$ check p.th
fun f(n : int) : int = n
task t() : int = edit 1
task main() : int = edit f()
= 1 tophat: p.th: byte 74: Arity want 1 got 0

$ run p.th
fun f(n : int) : int = n
task t() : int = edit 1
task main() : int = edit f(1)
= 0

$ check p.th
fun f(n : int) : int = n
task t() : int = edit 1
task main() : int = edit (t() + 1)
= 1 tophat: p.th: byte 75: UnknownName

$ run p.th
fun f(n : int) : int = n
task t() : int = edit 1
task main() : int = t() >>= x . edit (x + 1)
= 0

$ check p.th
fun f(n : int) : int = n
task t() : int = edit 1
task main() : int = t() >>? x -> edit x
= 1 tophat: p.th: byte 79: Unexpected token 32

$ run p.th
fun f(n : int) : int = n
task t() : int = edit 1
task main() : int = t() >>? x . edit x
= 0

$ check p.th
fun f(n : int) : int = n
task t() : int = edit 1
task main() : int = t() >>? _ . edit 1
= 1 tophat: p.th: byte 77: BadChar

$ run p.th
fun f(n : int) : int = n
task t() : int = edit 1
task main() : int = t() >>? u . edit 1
= 0

$ check p.th
fun f(n : int) : int = n
task t() : int = edit 1
task main() : int = t() >>? x . if x > 0 then edit x
= 1 tophat: p.th: byte 101: Unexpected token 40

$ run p.th
fun f(n : int) : int = n
task t() : int = edit 1
task main() : int = t() >>? x . if x > 0 then edit x else fail int
= 0

$ check p.th
fun f(n : int) : int = n
task t() : int = edit 1
task main() : int = fail
= 1 tophat: p.th: byte 73: Unexpected token 28

$ run p.th
fun f(n : int) : int = n
task t() : int = edit 1
task main() : int = fail int
= 0

$ check p.th
fun f(n : int) : int = n
task t() : int = edit 1
task main() : int = new r = 0 in r := 1
= 1 tophat: p.th: byte 88: Unexpected token 35

$ run p.th
fun f(n : int) : int = n
task t() : int = edit 1
task main() : int = new r = 0 in r := 1 ; share r
= 0

$ check p.th
fun f(n : int) : int = n
task t() : int = edit 1
task main() : int = new r = 0 in edit r
= 1 tophat: p.th: byte 87: RefInValue

$ run p.th
fun f(n : int) : int = n
task t() : int = edit 1
task main() : int = new r = 0 in edit !r
= 0

$ check p.th
fun f(n : int) : int = n
task t() : int = edit 1
task main() : int = new r = 0 in share !r
= 1 tophat: p.th: byte 88: Unexpected token 33

$ run p.th
fun f(n : int) : int = n
task t() : int = edit 1
task main() : int = new r = 0 in share r
= 0

$ check p.th
fun f(n : int) : int = n
task t() : int = edit 1
task main() : (int, int) = edit 1 <&> let x = 2 in edit x
= 1 tophat: p.th: byte 87: Unexpected token 34

$ run p.th
fun f(n : int) : int = n
task t() : int = edit 1
task main() : (int, int) = edit 1 <&> (let x = 2 in edit x)
= 0

$ check p.th
fun f(n : int) : int = n
task t() : int = edit 1
fun g(n : int) : int = g(n - 1)
task main() : unit = enter unit
= 1 tophat: p.th: byte 72: LaterCall

$ check p.th
fun f(n : int) : int = n
task t() : int = edit 1
task s() : int = s()
task main() : unit = enter unit
= 1 tophat: p.th: byte 66: Unguarded

$ run p.th
fun f(n : int) : int = n
task t() : int = edit 1
task s() : int = edit () >>= u . s()
task main() : unit = enter unit
= 0
"#;
