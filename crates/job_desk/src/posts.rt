//! Where a worker gets its requests. A clause sees a post as what it gave and said so far.
ghost use Rattle.std.specs.Prelude.{◌≡◌, IfSome, IfNone, Some};
ghost use Rattle.job_desk.specs.Posts.{Seen, IsShut, after_given, after_live};

use requests::Request;

/// Where a worker gets requests, one after the other, and learns whether the answer to the one that it has is still wanted.
pub trait Post {
    ghost seen: { Self → Seen };

    /// Returns the next request, which is then the open one. `None` where no more is to be asked for.
    fn next(&mut self) -> Option<Request>
        ensures some { IfSome result (λ request. seen self.new
            ≡ after_given (seen self.old) request) }
        ensures none { IfNone result (IsShut (seen self.old) (seen self.new)) };

    /// Returns whether the open request, of this number, is live. Where it is not, none is open any more.
    fn live(&mut self, id: u64) -> bool
        requires { (seen self.old).open_id ≡ Some id }
        ensures { seen self.new ≡ after_live result (seen self.old) id };
}
