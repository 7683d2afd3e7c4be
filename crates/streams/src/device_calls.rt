// The answers to the calls of the device crate.
use device::model::DeviceModel;
use device::sends;
use protocol::Action;
use reading::DeviceCall;
use std::io;
use std::io::Write;
use writing::send;
use writing::write::Model;

fn keepalive<W: Write>(out: &mut W, actions: &[Option<Action>; 3]) -> io::Result<()> {
    for (i, action) in actions.iter().enumerate() {
        if 0 < i {
            out.write_all(b"; ")?;
        }
        send::send(out, action)?;
    }
    Ok(())
}

pub fn answer<W: Write>(out: &mut W, call: DeviceCall<'_>) -> io::Result<()> {
    match call {
        DeviceCall::Ack(model, src, type_id) => {
            send::send(out, &sends::result_ack(model, src, type_id))
        }
        DeviceCall::Keepalive => keepalive(out, &sends::keepalive_actions()),
        DeviceCall::KeepaliveFor(model) => keepalive(out, &sends::keepalive_actions_for(model)),
        DeviceCall::Model(payload) => {
            write!(out, "{}", Model(DeviceModel::from_dev_info(payload)))
        }
    }
}
