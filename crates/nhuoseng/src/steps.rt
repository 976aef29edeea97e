// The end-point as the C interface has it: a call for fresh, sound, ready, each step and the batch, by value. Each promise is the method's own.
ghost use Rattle.std.specs.Prelude.{[], ◌≡◌, cond, length};
ghost use Rattle.endpoint.specs.Give.{batch_answer, batch_area};
ghost use Rattle.endpoint.specs.Ready.{ready as ready_of};
ghost use Rattle.endpoint.specs.Sound.{sound as sound_of};
ghost use Rattle.endpoint.specs.Steps.{step, area_after, fresh_step, send as send_of, block_ok, start_change, membership_view, receive as receive_of, ask_to_block, declare as declare_of, announce as announce_of, pass_out, sync as sync_of, forward as forward_of, give_out, install as install_of};

use endpoint::{Answer, Batch, EndPoint};
use messages::Message;
use views::View;

// Fresh end-point p; 1 above 7.
pub fn nh_fresh(p: u8) -> Answer
    ensures { result ≡ fresh_step p }
{
    EndPoint::fresh(p)
}

// 1 where the end-point is sound, 0 where it is not.
pub fn nh_sound(e: EndPoint) -> u8
    ensures { result ≡ cond (sound_of e) 1 0 }
{
    u8::from(e.sound())
}

// 1 where a view is ready, 0 where none is.
pub fn nh_ready(e: EndPoint) -> u8
    ensures { result ≡ cond (ready_of e) 1 0 }
{
    u8::from(e.ready())
}

// Application send: 1, 5, 6.
pub fn nh_send(e: EndPoint, area: &mut [u64], w: u64) -> Answer
    ensures { (result ≡ step (send_of w) e area.old) × (area.new ≡ area_after (send_of w) e area.old) }
{
    e.send(area, w)
}

// Block-ok: 1, 4.
pub fn nh_block_ok(e: EndPoint) -> Answer
    ensures { result ≡ step block_ok e [] }
{
    e.block_ok()
}

// Start change: 1, 2, 3.
pub fn nh_start_change(e: EndPoint, number: u32, set: u8) -> Answer
    ensures { result ≡ step (start_change number set) e [] }
{
    e.start_change(number, set)
}

// Membership view: 1 to 4.
pub fn nh_membership_view(e: EndPoint, v: View) -> Answer
    ensures { result ≡ step (membership_view v) e [] }
{
    e.membership_view(v)
}

// Receive from q: 1, 2, 3, 4, 6, 7, 14.
pub fn nh_receive(e: EndPoint, area: &mut [u64], q: u8, m: Message) -> Answer
    ensures { (result ≡ step (receive_of q m) e area.old) × (area.new ≡ area_after (receive_of q m) e area.old) }
{
    e.receive(area, q, m)
}

// Ask to block: 1, 4.
pub fn nh_ask_to_block(e: EndPoint) -> Answer
    ensures { result ≡ step ask_to_block e [] }
{
    e.ask_to_block()
}

// Declare: 1.
pub fn nh_declare(e: EndPoint) -> Answer
    ensures { result ≡ step declare_of e [] }
{
    e.declare()
}

// Announce: 1, 8, 10.
pub fn nh_announce(e: EndPoint) -> Answer
    ensures { result ≡ step announce_of e [] }
{
    e.announce()
}

// Pass out: 1, 4, 10.
pub fn nh_pass_out(e: EndPoint, area: &[u64]) -> Answer
    ensures { result ≡ step pass_out e area.now }
{
    e.pass_out(area)
}

// Sync: 1, 4, 8.
pub fn nh_sync(e: EndPoint) -> Answer
    ensures { result ≡ step sync_of e [] }
{
    e.sync()
}

// Forward to q of r: 1, 4, 9, 10.
pub fn nh_forward(e: EndPoint, area: &[u64], q: u8, r: u8) -> Answer
    ensures { result ≡ step (forward_of q r) e area.now }
{
    e.forward(area, q, r)
}

// Give out from q: 1, 2, 10, 11.
pub fn nh_give_out(e: EndPoint, area: &[u64], q: u8) -> Answer
    ensures { result ≡ step (give_out q) e area.now }
{
    e.give_out(area, q)
}

// Install: 1, 4, 9, 12, 13, 15.
pub fn nh_install(e: EndPoint) -> Answer
    ensures { result ≡ step install_of e [] }
{
    e.install()
}

// Batch from q: 1, 2.
pub fn nh_give_batch(e: EndPoint, area: &[u64], q: u8, out: &mut [u64]) -> Batch
    ensures { (result ≡ batch_answer e area.now q (length out.old)) × (out.new ≡ batch_area e area.now q out.old) }
{
    e.batch(area, q, out)
}
