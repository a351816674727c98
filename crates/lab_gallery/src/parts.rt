//! The texts of a page. Made by `page/embed.py` of the files in `page/`.

mod cards_script;
mod gallery_style;
mod levels_script;
mod reached_script;
mod runs_script;
mod template_1;
mod template_2;
mod template_3;
mod template_4;
mod template_5;

use replay_page::{push_base_style, push_elements_script};
use std::alloc::AllocError;

/// Adds what stands before the title.
pub(crate) fn push_head(page: &mut String) -> Result<(), AllocError> {
    page.push_str(template_1::TEXT)
}

/// Adds what stands between the title and the data.
pub(crate) fn push_middle(page: &mut String) -> Result<(), AllocError> {
    page.push_str(template_2::TEXT)?;
    push_base_style(page)?;
    page.push_str(gallery_style::TEXT)?;
    page.push_str(template_3::TEXT)
}

/// Adds what stands after the data.
pub(crate) fn push_tail(page: &mut String) -> Result<(), AllocError> {
    page.push_str(template_4::TEXT)?;
    push_elements_script(page)?;
    page.push_str(reached_script::TEXT)?;
    page.push_str(runs_script::TEXT)?;
    page.push_str(cards_script::TEXT)?;
    page.push_str(levels_script::TEXT)?;
    page.push_str(template_5::TEXT)
}
