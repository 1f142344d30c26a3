ghost use Rattle.std.specs.Prelude.{◌≡◌, ◌<◌, ◌≤◌, None, Some, [], length, true};
ghost use Rattle.outer_io.specs.Causes.{Rose};
ghost use Rattle.outer_io.specs.PlainSource.{left_of};
ghost use Rattle.outer_io.specs.Sink.{Took, faults_after_write};
ghost use Rattle.outer_io.specs.Source.{Gave, faults_after_read};
ghost use Rattle.outer_io.specs.StreamLinks.{count_beside, told_over_stream};
ghost use Rattle.outer_gates.specs.ReceivedLinks.{GivesReceived, IsConnectionRead, IsConnectionWrite, is_closed};

use outer_io::{Got, Link, PlainSource, Put, Sink, Source, StreamLink};
use std::time::Clock;
use task_model::Row;

/// A link over a connection of which some bytes were received before: it gives these first, and then what the connection gives. It
/// tells its counts, and whether it was shut. `shut` closes the connection, and with it its file: behind that a read answers `End`, and a write `Failed`.
#[derive(Drop)]
pub struct ReceivedLink<'r, R: Clock> {
    received: PlainSource,
    // None: it is closed.
    connection: Option<StreamLink<'r, R>>,
    read_faults: u64,
    write_faults: u64,
}

impl<'r, R: Clock> ReceivedLink<'r, R> {
    /// A link that gives these bytes, and then those of a connection. Of it no call failed yet.
    pub fn new(received: Row<u8>, connection: StreamLink<'r, R>) -> ReceivedLink<'r, R>
        ensures received { left_of result.received ≡ received.list }
        ensures opens { result.connection ≡ Some connection.entry }
        ensures faults { (result.read_faults ≡ 0) × (result.write_faults ≡ 0) }
    {
        ReceivedLink {
            received: PlainSource::new(received, usize::MAX),
            connection: Some(connection),
            read_faults: 0,
            write_faults: 0,
        }
    }

    // Reads what the connection gives.
    fn read_connection(&mut self, room: &mut [u8]) -> Got
        requires { 0 < length room.old }
        ensures bytes { Gave None None room.new result }
        ensures stays { (self.new.received ≡ self.old.received) × (self.new.write_faults ≡ self.old.write_faults)
            × (is_closed self.new.connection ≡ is_closed self.old.connection) }
        ensures count { self.old.read_faults ≤ self.new.read_faults }
        ensures failed { result ≡ Got.Failed → Rose self.old.read_faults self.new.read_faults }
        ensures exact { self.new.read_faults ≡ faults_after_read self.old.read_faults result }
        ensures told { IsConnectionRead self.old.connection self.new.connection result }
    {
        let Some(connection) = &mut self.connection else {
            return Got::End;
        };
        let got = connection.read(room);
        if got == Got::Failed {
            self.read_faults = self.read_faults.saturating_add(1);
        }
        got
    }

    // Writes to the connection.
    fn write_connection(&mut self, piece: &[u8]) -> Put
        requires { 0 < length piece.now }
        ensures bytes { Took None None piece.now result }
        ensures told { IsConnectionWrite self.old.connection self.new.connection result }
        ensures stays { (self.new.received ≡ self.old.received) × (self.new.read_faults ≡ self.old.read_faults)
            × (self.new.write_faults ≡ self.old.write_faults)
            × (is_closed self.new.connection ≡ is_closed self.old.connection) }
    {
        match &mut self.connection {
            Some(connection) => connection.write(piece),
            None => Put::Failed,
        }
    }
}

impl<'r, R: Clock> Source for ReceivedLink<'r, R> {
    ghost left = { λ _. None };

    ghost faults = { λ l. l.read_faults };

    ghost beside = { λ l. count_beside l.write_faults (is_closed l.connection) };

    fn read(&mut self, room: &mut [u8]) -> Got
        requires { 0 < length room.old }
        ensures bytes { Gave None None room.new result }
        ensures count { self.old.read_faults ≤ self.new.read_faults }
        ensures failed { result ≡ Got.Failed → Rose self.old.read_faults self.new.read_faults }
        ensures exact { self.new.read_faults ≡ faults_after_read self.old.read_faults result }
        ensures beside { count_beside self.new.write_faults (is_closed self.new.connection)
            ≡ count_beside self.old.write_faults (is_closed self.old.connection) }
        ensures received { GivesReceived (left_of self.old.received) (left_of self.new.received) room.new result }
        ensures alone { (left_of self.old.received ≡ [] → ⊥) → self.new.connection ≡ self.old.connection }
        ensures behind { left_of self.old.received ≡ [] → IsConnectionRead self.old.connection self.new.connection result }
    {
        match self.received.read(room) {
            Got::End | Got::Failed => self.read_connection(room),
            took => took,
        }
    }
}

impl<'r, R: Clock> Sink for ReceivedLink<'r, R> {
    ghost taken = { λ _. None };

    ghost faults = { λ l. l.write_faults };

    ghost beside = { λ l. count_beside l.read_faults (is_closed l.connection) };

    fn write(&mut self, piece: &[u8]) -> Put
        requires { 0 < length piece.now }
        ensures bytes { Took None None piece.now result }
        ensures count { self.old.write_faults ≤ self.new.write_faults }
        ensures failed { result ≡ Put.Failed → Rose self.old.write_faults self.new.write_faults }
        ensures exact { self.new.write_faults ≡ faults_after_write self.old.write_faults result }
        ensures beside { count_beside self.new.read_faults (is_closed self.new.connection)
            ≡ count_beside self.old.read_faults (is_closed self.old.connection) }
        ensures received { self.new.received ≡ self.old.received }
        ensures told { IsConnectionWrite self.old.connection self.new.connection result }
    {
        let put = self.write_connection(piece);
        if put == Put::Failed {
            self.write_faults = self.write_faults.saturating_add(1);
        }
        put
    }
}

impl<'r, R: Clock> Link for ReceivedLink<'r, R> {
    ghost use Rattle.std.specs.Prelude.{refl};

    ghost told = { λ l. told_over_stream l.read_faults l.write_faults (is_closed l.connection) };

    fn shut(&mut self)
        ensures told { told_over_stream self.new.read_faults self.new.write_faults (is_closed self.new.connection)
            ≡ told_over_stream self.old.read_faults self.old.write_faults true }
        ensures closed { self.new.connection ≡ None }
        ensures received { self.new.received ≡ self.old.received }
    {
        if let Some(mut connection) = self.connection.take() {
            connection.shut();
        }
    }

    ghost tells = { λ l. record { left = refl; taken = refl; read_faults = refl; write_faults = refl } };

    ghost keeps_reads = { λ l. refl };

    ghost keeps_writes = { λ l. refl };
}
