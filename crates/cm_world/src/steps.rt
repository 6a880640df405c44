//! Events that keep the file open.

ghost use Rattle.std.specs.Prelude.{◌≡◌};
ghost use Rattle.cm_commands.specs.Machine.{Machine};
ghost use Rattle.cm_session.specs.Moves.{SessionMatches};
ghost use Rattle.cm_world.specs.Moves.{EventMoves};
ghost use Rattle.cm_world.specs.declared.event.Event.TheVariants as event;

use crate::reply::{Reply, advance_reply, command_reply, look_reply, seal_reply, trim_reply};
use crate::world::World;
use cm_commands::Command;

impl World {
    /// A command is requested.
    pub(crate) fn accept(&mut self, command: Command<'_>) -> Reply
        ensures { (k : Machine) → SessionMatches k self.old.session
            → EventMoves k (event.Accept command.entry) result self.old self.new }
    {
        self.session.images();
        let answer = self.session.accept(command);
        self.session.images();
        command_reply(answer)
    }

    /// The oldest accepted commands are handed out.
    pub(crate) fn seal(&mut self) -> Reply
        ensures { (k : Machine) → SessionMatches k self.old.session
            → EventMoves k event.Seal result self.old self.new }
    {
        self.session.images();
        let answer = self.session.seal();
        self.session.images();
        seal_reply(answer)
    }

    /// The committer makes its next device call.
    pub(crate) fn advance(&mut self) -> Reply
        ensures { (k : Machine) → SessionMatches k self.old.session
            → EventMoves k event.Advance result self.old self.new }
    {
        self.session.committed();
        let answer = self.session.advance();
        self.session.images();
        advance_reply(answer)
    }

    /// The file is to be truncated.
    pub(crate) fn trim(&mut self) -> Reply
        ensures { (k : Machine) → SessionMatches k self.old.session
            → EventMoves k event.Trim result self.old self.new }
    {
        self.session.images();
        self.session.committed();
        let answer = self.session.trim();
        self.session.images();
        trim_reply(answer)
    }

    /// The accepted cache learns what is acknowledged.
    pub(crate) fn learn(&mut self) -> Reply
        ensures { (k : Machine) → SessionMatches k self.old.session
            → EventMoves k event.Learn result self.old self.new }
    {
        self.session.images();
        let number = self.session.learn();
        self.session.images();
        Reply::Learnt(number)
    }

    /// A class is looked up.
    pub(crate) fn look(&mut self, loader: &[u8], class: &[u8]) -> Reply
        ensures { (k : Machine) → SessionMatches k self.old.session
            → EventMoves k (event.Look loader.entry class.entry) result self.old self.new }
    {
        self.session.images();
        look_reply(self.session.find(loader, class))
    }

    /// The next device call is to fail.
    pub(crate) fn arm(&mut self, stores: usize) -> Reply
        ensures { (k : Machine) → SessionMatches k self.old.session
            → EventMoves k (event.Fault stores) result self.old self.new }
    {
        self.session.images();
        self.session.arm(stores);
        self.session.images();
        Reply::Armed
    }
}
