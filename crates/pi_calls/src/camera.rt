// Writes a camera's configuration.
use protocol::CamConfig;
use std::io;
use std::io::Write;
use writing::fields;

fn picture<W: Write>(out: &mut W, c: &CamConfig) -> io::Result<()> {
    write!(
        out,
        " cam_config=dynamic_config={} resolution_width={} resolution_height={} rotation={} ev={}",
        c.dynamic_config, c.resolution_width, c.resolution_height, c.rotation, c.ev
    )?;
    write!(
        out,
        " quality={} framerate={} streaming_framerate={} ringbuffer_pretime_ms={} ringbuffer_posttime_ms={}",
        c.quality,
        c.framerate,
        c.streaming_framerate,
        c.ringbuffer_pretime_ms,
        c.ringbuffer_posttime_ms
    )
}

fn raw<W: Write>(out: &mut W, c: &CamConfig) -> io::Result<()> {
    write!(
        out,
        " raw_camera_mode={} fusion_camera_mode={} raw_shutter_speed_max=0x{:016X} raw_ev_roi_x={} raw_ev_roi_y={} \
        raw_ev_roi_width={}",
        c.raw_camera_mode,
        c.fusion_camera_mode,
        fields::bits(c.raw_shutter_speed_max),
        c.raw_ev_roi_x,
        c.raw_ev_roi_y,
        c.raw_ev_roi_width
    )?;
    write!(
        out,
        " raw_ev_roi_height={} raw_x_offset={} raw_bin44={} raw_live_preview_write_interval_ms={} raw_y_offset={}",
        c.raw_ev_roi_height,
        c.raw_x_offset,
        c.raw_bin44,
        c.raw_live_preview_write_interval_ms,
        c.raw_y_offset
    )
}

fn buffer<W: Write>(out: &mut W, c: &CamConfig) -> io::Result<()> {
    write!(
        out,
        " buffer_sub_sampling_pre_trigger_div={} buffer_sub_sampling_post_trigger_div={} \
        buffer_sub_sampling_switch_time_offset=0x{:016X} buffer_sub_sampling_total_buffer_size={} \
        buffer_sub_sampling_pre_trigger_buffer_size={}",
        c.buffer_sub_sampling_pre_trigger_div,
        c.buffer_sub_sampling_post_trigger_div,
        fields::bits(c.buffer_sub_sampling_switch_time_offset),
        c.buffer_sub_sampling_total_buffer_size,
        c.buffer_sub_sampling_pre_trigger_buffer_size
    )
}

pub fn config<W: Write>(out: &mut W, c: &CamConfig) -> io::Result<()> {
    picture(out, c)?;
    raw(out, c)?;
    buffer(out, c)
}
