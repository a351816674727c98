//! The texts of a page. Made by `page/embed.py` of the files in `page/`.

mod actions_script;
mod chips_script;
mod choices_script;
mod claims_script;
mod effects_script;
mod findings_script;
mod goals_script;
mod going_script;
mod graph_script;
mod kept_script;
mod keys_script;
mod kinds_script;
mod lanes_script;
mod lecture_script;
mod lecture_style;
mod lines_script;
mod map_script;
mod naming_script;
mod panes_script;
mod picture_script;
mod play_style;
mod telling_script;
mod template_1;
mod template_2;
mod template_3;
mod template_4;
mod template_5;
mod waiters_script;
mod waiting_script;
mod way_script;
mod why_script;

use replay_page::{
    push_base_style, push_elements_script, push_program_script, push_sentences_script,
    push_values_script,
};
use std::alloc::AllocError;

/// Adds what stands before the title.
pub(crate) fn push_head(page: &mut String) -> Result<(), AllocError> {
    page.push_str(template_1::TEXT)
}

/// Adds what stands between the title and the data.
pub(crate) fn push_middle(page: &mut String) -> Result<(), AllocError> {
    page.push_str(template_2::TEXT)?;
    push_base_style(page)?;
    page.push_str(play_style::TEXT)?;
    page.push_str(lecture_style::TEXT)?;
    page.push_str(template_3::TEXT)
}

/// Adds what stands after the data.
pub(crate) fn push_tail(page: &mut String) -> Result<(), AllocError> {
    page.push_str(template_4::TEXT)?;
    push_elements_script(page)?;
    page.push_str(graph_script::TEXT)?;
    push_values_script(page)?;
    push_program_script(page)?;
    push_sentences_script(page)?;
    page.push_str(kinds_script::TEXT)?;
    page.push_str(way_script::TEXT)?;
    page.push_str(naming_script::TEXT)?;
    page.push_str(chips_script::TEXT)?;
    page.push_str(actions_script::TEXT)?;
    page.push_str(findings_script::TEXT)?;
    page.push_str(effects_script::TEXT)?;
    page.push_str(waiters_script::TEXT)?;
    page.push_str(waiting_script::TEXT)?;
    page.push_str(claims_script::TEXT)?;
    page.push_str(telling_script::TEXT)?;
    page.push_str(lines_script::TEXT)?;
    page.push_str(why_script::TEXT)?;
    page.push_str(lecture_script::TEXT)?;
    page.push_str(choices_script::TEXT)?;
    page.push_str(lanes_script::TEXT)?;
    page.push_str(picture_script::TEXT)?;
    page.push_str(map_script::TEXT)?;
    page.push_str(panes_script::TEXT)?;
    page.push_str(goals_script::TEXT)?;
    page.push_str(kept_script::TEXT)?;
    page.push_str(going_script::TEXT)?;
    page.push_str(keys_script::TEXT)?;
    page.push_str(template_5::TEXT)
}
